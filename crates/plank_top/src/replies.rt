ghost use Rattle.std.specs.Prelude.{◌≡◌, ◌≤◌, ◌*◌, length, IfOk};
ghost use Rattle.plank_top.specs.Answers.{refusal, printed, status_of, told_of, IsJudgement, IsJudgingAnswer, IsPrintAnswer, IsLargeAnswer};
ghost use Rattle.plank_top.specs.Replies.{answer_in};
ghost use Rattle.plank_ast.specs.declared.texts.Text.{Text};
ghost use Rattle.plank_type.specs.Checks.{IsProgramOf};

use crate::crews::Crew;
use crate::printing::refusal_line;
use crate::status::Status;
use crate::trees::{Tree, tree_of};
use plank_ast::Text;
use plank_base::{BYTES_LIMIT, OutOfMemory};
use plank_io::Gate;
use plank_judge::Verdict;
use plank_large::{large_text, summary};
use plank_prog::Program;
use plank_prove::judge;
use plank_report::{report, report_effects};
use plank_type::{TypeFault, check};
use plank_verdict::Judged;
use std::alloc::Global;
use std::marker::Sync;
use std::thread::Threads;

/// What a call is to say: its status, and the bytes that it writes.
#[derive(Drop)]
pub struct Reply {
    pub status: Status,
    pub output: Vec<u8>,
}

/// The reply that refuses with one line.
pub fn refuse(alloc: Global, status: Status) -> Result<Reply, OutOfMemory>
    ensures { IfOk result (λ r. answer_in r ≡ refusal status) }
{
    let output = refusal_line(alloc, status)?;
    Ok(Reply { status, output })
}

/// The status of a verdict.
fn status_of(verdict: Verdict) -> Status
    ensures { result ≡ status_of verdict }
{
    match verdict {
        Verdict::Accepted => Status::Accepted,
        Verdict::Rejected(obligation) => Status::Rejected(obligation),
    }
}

/// What a command tells of a judged program.
#[derive(Clone, Copy, Debug, PartialEq, Eq)]
pub enum Telling {
    /// The report, and its verdict as the status.
    Whole,
    /// The report without its last line.
    WithoutVerdict,
    /// The summary of the large text of so many methods.
    Summary(u32),
}

/// Tells of a program what was judged of it.
fn tell(
    alloc: Global,
    program: &Program,
    said: &Judged,
    telling: Telling,
) -> Result<Reply, OutOfMemory>
    ensures { IfOk result (λ r. answer_in r ≡ told_of telling program.now said.now) }
{
    let effects = said.effects.as_slice();
    match telling {
        Telling::Whole => {
            let output = report(alloc, program, effects, said.verdict)?;
            let status = status_of(said.verdict);
            Ok(Reply { status, output })
        }
        Telling::WithoutVerdict => {
            let output = report_effects(alloc, program, effects)?;
            let status = Status::Done;
            Ok(Reply { status, output })
        }
        Telling::Summary(methods) => {
            let output = summary(alloc, methods, program, effects, said.verdict)?;
            let status = Status::Done;
            Ok(Reply { status, output })
        }
    }
}

/// Judges the program of a text.
fn judge_program<R: Threads + Sync, G: Gate>(
    alloc: Global,
    program: &Program,
    telling: Telling,
    crew: &Crew<'_, R, G>,
) -> Result<Reply, OutOfMemory>
    ensures { IfOk result (λ r. (t : Text) → IsProgramOf t program.now → IsJudgement telling t (answer_in r)) }
{
    let said = judge(crew.rt, alloc, program, crew.workers, crew.gate)?;
    let reply = tell(alloc, program, &said, telling);
    drop(said);
    reply
}

/// Types a text and judges its program.
fn judge_text<R: Threads + Sync, G: Gate>(
    alloc: Global,
    text: &Text,
    telling: Telling,
    crew: &Crew<'_, R, G>,
) -> Result<Reply, OutOfMemory>
    ensures { IfOk result (λ r. IsJudgement telling text.now (answer_in r)) }
{
    match check(alloc, text) {
        Ok(program) => {
            let reply = judge_program(alloc, &program, telling, crew);
            drop(program);
            reply
        }
        Err(TypeFault::Broken(kind, place)) => refuse(alloc, Status::IllTyped(kind, place)),
        Err(TypeFault::TooMany(thing, count, limit)) => {
            refuse(alloc, Status::TooLarge(thing, count, limit))
        }
        Err(TypeFault::OutOfMemory) => Err(OutOfMemory),
    }
}

/// Judges a text, and tells what it is to be told of it.
pub fn judge_bytes<R: Threads + Sync, G: Gate>(
    alloc: Global,
    bytes: &[u8],
    telling: Telling,
    crew: &Crew<'_, R, G>,
) -> Result<Reply, OutOfMemory>
    requires { length bytes.now ≤ BYTES_LIMIT }
    ensures { IfOk result (λ r. IsJudgingAnswer telling bytes.now (answer_in r)) }
{
    match tree_of(alloc, bytes)? {
        Tree::Text(text) => {
            let reply = judge_text(alloc, &text, telling, crew);
            drop(text);
            reply
        }
        Tree::Refused(status) => refuse(alloc, status),
    }
}

/// Judges the large text of so many methods, and tells the summary.
pub fn judge_large<R: Threads + Sync, G: Gate>(
    alloc: Global,
    methods: u32,
    crew: &Crew<'_, R, G>,
) -> Result<Reply, OutOfMemory>
    requires { (2 ≤ methods) × (methods ≤ 16) }
    ensures { IfOk result (λ r. IsLargeAnswer methods (answer_in r)) }
{
    let text = large_text(alloc, methods)?;
    judge_bytes(alloc, &text, Telling::Summary(methods), crew)
}

/// The canonical form of a text's tree.
fn print_tree(alloc: Global, text: &Text) -> Result<Reply, OutOfMemory>
    ensures { IfOk result (λ r. answer_in r ≡ printed text.now) }
{
    let output = plank_ast::print(alloc, text)?.into_bytes();
    let status = Status::Done;
    Ok(Reply { status, output })
}

/// Writes a text in canonical form.
pub fn print(alloc: Global, bytes: &[u8]) -> Result<Reply, OutOfMemory>
    requires { length bytes.now ≤ BYTES_LIMIT }
    ensures { IfOk result (λ r. IsPrintAnswer bytes.now (answer_in r)) }
{
    match tree_of(alloc, bytes)? {
        Tree::Text(text) => {
            let reply = print_tree(alloc, &text);
            drop(text);
            reply
        }
        Tree::Refused(status) => refuse(alloc, status),
    }
}
