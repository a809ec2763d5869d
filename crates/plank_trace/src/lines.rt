ghost use Rattle.std.specs.Prelude.{◌≡◌, ◌≤◌, length};
ghost use Rattle.std.specs.List.{position_or_len};
ghost use Rattle.plank_trace.specs.Lines.{has_name, choice_of};

use plank_base::{Label, ThreadId};
use plank_prog::{Method, Program};
use plank_sem::{Act, Choice};
use thiserror::Error;

/// How many threads a schedule may name, by the numbers from 0.
pub const THREADS: u32 = 64;

/// A line of a schedule: which thread moves.
#[derive(Debug, Drop)]
pub enum Line {
    /// It begins a call of the method of this name at a key.
    Call {
        thread: ThreadId,
        method: Label,
        key: i64,
    },
    /// It takes the next step of its call.
    Go {
        thread: ThreadId,
    },
}

/// Why there is no trace.
#[derive(Clone, Copy, Debug, PartialEq, Eq, Error)]
pub enum TraceFault {
    /// The step of this number, from 1, is the first that cannot be made.
    #[error("a step that cannot be made")]
    BadStep(u32),
    /// Memory was refused.
    #[error("out of memory")]
    OutOfMemory,
}

fn has_name(method: &Method, name: &Label) -> bool
    ensures { result ≡ has_name name.now method.now }
{
    method.name == *name
}

// The number of the method of a name, and the number past all methods where there is none.
fn number_of(methods: &[Method], name: &Label) -> u32
    requires { length methods.now ≤ 4096 }
    ensures { result ≡ position_or_len (has_name name.now) methods.now }
{
    for i in 0..methods.len() {
        if has_name(&methods[i], name) {
            return i as u32;
        }
    }
    methods.len() as u32
}

/// What a line chooses.
pub(crate) fn choice_of(program: &Program, line: &Line) -> Choice
    ensures { result ≡ choice_of program.now.methods line.now }
{
    match line {
        Line::Call {
            thread,
            method,
            key,
        } => Choice {
            thread: *thread,
            act: Act::Invoke {
                method: number_of(program.methods.as_slice(), method),
                key: *key,
            },
        },
        Line::Go { thread } => Choice {
            thread: *thread,
            act: Act::Go,
        },
    }
}
