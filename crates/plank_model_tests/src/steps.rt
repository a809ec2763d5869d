//! Steps of worlds, each with the event or the fault that is expected of it.
ghost use Rattle.std.specs.Prelude.{IfOk};
ghost use Rattle.plank_sem.specs.Fits.{Fits};

use crate::texts::program_of;
use plank_base::{NodeId, Op, ThreadId};
use plank_hist::Event;
use plank_prog::Program;
use plank_sem::{Act, Choice, StepFault, Stepped, World};
use std::alloc::Global;
use std::process::Abort;
use std::test::Fail;

/// What stands before the methods: a list of two nodes with a second pointer.
const HEADER: &[u8] = b"structure ends; flag mark; ptr next free; ptr other free; lock; root head;
start head { key = MIN; next = tail; } start tail { key = MAX; }
edge next : x.key < j; holds x.key == j;";

/// The program of these methods, and its start.
fn start(alloc: Global, methods: &[u8]) -> Result<(Program, World), Fail>
    ensures { IfOk result (λ p. Fits p.0.methods p.1) }
{
    let mut text = Vec::from_slice(alloc, HEADER)?;
    text.extend_from_slice(methods)?;
    let program = program_of(alloc, &text).ok_or("no program")?;
    let world = World::start(alloc, &program)?;
    Ok((program, world))
}

/// Makes the choices one after another, each with the event or the fault that is expected of it.
fn play<R: Abort>(
    rt: &R,
    world: &mut World,
    program: &Program,
    steps: &[(u32, Act, Result<Option<Event>, StepFault>)],
)
    requires { Fits program.now.methods world.old }
    ensures { Fits program.now.methods world.new }
{
    for (thread, act, expected) in steps {
        assert!(rt; world.heap().nodes.len() < 1_000_000);
        let choice = Choice {
            thread: ThreadId(*thread),
            act: *act,
        };
        let found = world.step(program, choice);
        assert!(rt;
            found == expected.map(|event| Stepped { event }),
            "thread {thread}"
        );
    }
}

const FIRST: Act = Act::Invoke { method: 0, key: 7 };

const SECOND: Act = Act::Invoke { method: 1, key: 7 };

const QUIET: Result<Option<Event>, StepFault> = Ok(None);

const REFUSED: Result<Option<Event>, StepFault> = Err(StepFault::NoSuchThread);

const fn invoked(thread: u32) -> Result<Option<Event>, StepFault> {
    Ok(Some(Event::Invoke {
        thread: ThreadId(thread),
        op: Op::Contains,
        key: 7,
    }))
}

const fn answered(thread: u32, answer: bool) -> Result<Option<Event>, StepFault> {
    Ok(Some(Event::Respond {
        thread: ThreadId(thread),
        answer,
    }))
}

#[test]
fn an_upkeep_in_the_middle_of_a_lookup_tells_nothing(rt: HostRuntime) -> Result<(), Fail> {
    let methods = b"method contains(k) { var p, c; p = root; c = p.next;
while (c.key < k) { p = c; c = p.next; } if (c.key == k) { return true; } return false; }
method sweep as upkeep(k) { var p; p = root; return true; }";
    let (program, mut world) = start(rt.alloc(), methods)?;
    let steps = [
        (1, Act::Go, REFUSED),
        (1, FIRST, invoked(1)),
        (1, SECOND, REFUSED),
        (1, Act::Go, QUIET),
        (2, SECOND, QUIET),
        (2, SECOND, REFUSED),
        (1, Act::Go, QUIET),
        (2, Act::Go, QUIET),
        (1, Act::Go, QUIET),
        (2, Act::Go, QUIET),
        (2, Act::Go, REFUSED),
        (1, Act::Go, QUIET),
        (1, Act::Go, answered(1, false)),
    ];
    play(&rt, &mut world, &program, &steps);
    assert!(rt; world.at(ThreadId(1)).is_none() && world.at(ThreadId(2)).is_none());
    Ok(())
}

fn holder(world: &World) -> Option<ThreadId> {
    match world.heap().nodes.get(0) {
        Some(node) => node.lock,
        None => None,
    }
}

#[test]
fn a_lock_has_one_holder_who_alone_frees_it(rt: HostRuntime) -> Result<(), Fail> {
    let methods = b"method contains(k) { lock root; unlock root; return true; }
method look as contains(k) { unlock root; return false; }";
    let (program, mut world) = start(rt.alloc(), methods)?;
    let takes = [
        (1, FIRST, invoked(1)),
        (1, Act::Go, QUIET),
        (2, FIRST, invoked(2)),
        (2, Act::Go, QUIET),
        (3, SECOND, invoked(3)),
        (3, Act::Go, QUIET),
    ];
    play(&rt, &mut world, &program, &takes);
    assert!(rt;
        holder(&world) == Some(ThreadId(1)),
        "no other takes or frees it"
    );
    assert!(rt; world.at(ThreadId(2)) == Some((0, 0)), "it waits");
    play(
        &rt,
        &mut world,
        &program,
        &[(1, Act::Go, QUIET), (2, Act::Go, QUIET)],
    );
    assert!(rt; holder(&world) == Some(ThreadId(2)));
    Ok(())
}

#[test]
fn a_block_reads_the_values_before_it_and_stops_at_a_false_test(
    rt: HostRuntime,
) -> Result<(), Fail> {
    let methods = b"method contains(k) { var p, c; c = root;
atomic { p = root.next; write root.next = c; write root.other = root; }
atomic { test root.mark; test p.key < c.key; write root.mark = true; }
else { if (p == c) { return false; } return true; } return false; }";
    let (program, mut world) = start(rt.alloc(), methods)?;
    let steps = [
        (1, FIRST, invoked(1)),
        (1, Act::Go, QUIET),
        (1, Act::Go, QUIET),
        (1, Act::Go, QUIET),
        (1, Act::Go, QUIET),
        (1, Act::Go, answered(1, true)),
    ];
    play(&rt, &mut world, &program, &steps);
    let root = world.heap().nodes.get(0).copied().ok_or("no root")?;
    assert!(rt; root.pointers == [Some(NodeId(0)), Some(NodeId(0))] && root.flags == 0);
    Ok(())
}

#[test]
fn a_read_of_null_is_refused(rt: HostRuntime) -> Result<(), Fail> {
    let methods = b"method contains(k) { var p; if (p.key < k) { return true; } return false; }";
    let (program, mut world) = start(rt.alloc(), methods)?;
    let steps = [
        (3, FIRST, invoked(3)),
        (3, Act::Go, Err(StepFault::NullRead)),
        (3, Act::Go, Err(StepFault::NullRead)),
    ];
    play(&rt, &mut world, &program, &steps);
    assert!(rt; world.at(ThreadId(3)) == Some((0, 0)));
    Ok(())
}
