ghost use Rattle.std.specs.Prelude.{◌≡◌, ◌<◌, ◌-◌, ◌^◌, length, Some, None, IfOk, IfErr, IsSome, All, OnOk, OnErr};
ghost use Rattle.std.specs.Option.{option_map, option_copied};
ghost use Rattle.plank_hist.specs.declared.events.Event.{Event};
ghost use Rattle.plank_prog.specs.Methods.{operation};
ghost use Rattle.plank_sem.specs.Steps.{action_of, op_of};
ghost use Rattle.std.specs.FinMap as map;

use crate::calls::{Call, VARIABLES};
use crate::pending::Pending;
use crate::steps::{Act, Choice, StepFault, Stepped};
use plank_base::{Op, OutOfMemory, ThreadId};
use plank_heap::Heap;
use plank_hist::Event;
use plank_prog::{Action, Block, MethodKind, Program, Value};
use std::alloc::Global;
use std::marker::Model;

/// A world: a heap, and the pending call of each thread that has one.
///
/// Steps are atomic and sequentially consistent, and no node is used again.
#[derive(Drop)]
pub struct World {
    heap: Heap,
    calls: Pending<Call>,
}

impl Model for World {
    ghost use Rattle.plank_sem.specs.Worlds.{WorldState, world_code};

    ghost Value = { WorldState };

    ghost coded = { world_code };

    ghost view = { λ w. record { heap = w.heap; calls = w.calls } };
}

impl World {
    ghost use Rattle.plank_sem.specs.Worlds.{start_world};
    ghost use Rattle.plank_sem.specs.Steps.{next, stepped, refused, null_read};
    ghost use Rattle.plank_sem.specs.Fits.{Fits};

    /// The world before any call, with the start heap of a program.
    pub fn start(alloc: Global, program: &Program) -> Result<World, OutOfMemory>
        ensures world { IfOk result (λ w. w ≡ start_world program.now.header) }
        ensures fits { IfOk result (λ w. Fits program.now.methods w) }
    {
        Ok(World {
            heap: Heap::start(alloc, program)?,
            calls: Pending::new(alloc),
        })
    }

    /// The heap; takes no memory.
    pub fn heap(&self) -> &Heap
        ensures { result.now ≡ self.now.heap }
    {
        &self.heap
    }

    /// The method and the location of the thread's pending call; takes no memory.
    pub fn at(&self, thread: ThreadId) -> Option<(u32, u32)>
        ensures { result ≡ option_map (λ c. (c.method, c.location)) (map.get self.now.calls thread.0) }
    {
        match self.calls.get(thread) {
            Some(call) => Some((call.method, call.location)),
            None => None,
        }
    }

    /// Makes one step: an invocation, or the step at the location of the thread's pending call.
    ///
    /// `NoSuchThread` comes where `Go` names a thread without a pending call, or `Invoke` names a
    /// thread with one or a method that is not there. `NullRead` comes where the thread's block reads
    /// or writes a field of null. After each fault the world is unchanged.
    pub fn step(&mut self, program: &Program, choice: Choice) -> Result<Stepped, StepFault>
        requires few { length self.old.heap.nodes < 2 ^ 32 - 1 }
        requires fitting { Fits program.now.methods self.old }
        ensures made { IfOk result (λ s. next program.now.methods self.old choice ≡ stepped s.event self.new) }
        ensures none { result ≡ Err StepFault.NoSuchThread → next program.now.methods self.old choice ≡ refused }
        ensures null { result ≡ Err StepFault.NullRead → next program.now.methods self.old choice ≡ null_read }
        ensures err { OnErr result (self.new ≡ self.old) }
        ensures fits { Fits program.now.methods self.new }
    {
        self.act(program, choice.thread, choice.act)
    }
}

impl World {
    ghost use Rattle.plank_sem.specs.Steps.{begun, went_on, performed, gone_on, acted, stepped, refused, null_read};
    ghost use Rattle.plank_sem.specs.Actions.{HasRoom, block_run, copied, allocated};
    ghost use Rattle.plank_sem.specs.Fits.{Fits};

    fn act(&mut self, program: &Program, thread: ThreadId, act: Act) -> Result<Stepped, StepFault>
        requires few { length self.old.heap.nodes < 2 ^ 32 - 1 }
        ensures made { IfOk result (λ s. acted program.now.methods self.old thread act ≡ stepped s.event self.new) }
        ensures none { result ≡ Err StepFault.NoSuchThread → acted program.now.methods self.old thread act ≡ refused }
        ensures null { result ≡ Err StepFault.NullRead → acted program.now.methods self.old thread act ≡ null_read }
        ensures err { OnErr result (self.new ≡ self.old) }
    {
        match act {
            Act::Invoke { method, key } => self.invoke(program, thread, method, key),
            Act::Go => self.go(program, thread),
        }
    }

    fn invoke(
        &mut self,
        program: &Program,
        thread: ThreadId,
        method: u32,
        key: i64,
    ) -> Result<Stepped, StepFault>
        ensures made { IfOk result (λ s. acted program.now.methods self.old thread (Act.Invoke method key) ≡ stepped s.event self.new) }
        ensures none { result ≡ Err StepFault.NoSuchThread → acted program.now.methods self.old thread (Act.Invoke method key) ≡ refused }
        ensures null { result ≡ Err StepFault.NullRead → acted program.now.methods self.old thread (Act.Invoke method key) ≡ null_read }
        ensures err { OnErr result (self.new ≡ self.old) }
    {
        match (
            self.calls.get(thread),
            program.methods.as_slice().get(method as usize),
        ) {
            (None, Some(called)) => {
                let event = invocation(thread, called.kind, key);
                match self.calls.insert(thread, Call::fresh(method, key)) {
                    Ok(()) => Ok(Stepped { event }),
                    Err(_) => Err(StepFault::OutOfMemory),
                }
            }
            _ => Err(StepFault::NoSuchThread),
        }
    }

    fn go(&mut self, program: &Program, thread: ThreadId) -> Result<Stepped, StepFault>
        requires few { length self.old.heap.nodes < 2 ^ 32 - 1 }
        ensures made { IfOk result (λ s. acted program.now.methods self.old thread Act.Go ≡ stepped s.event self.new) }
        ensures none { result ≡ Err StepFault.NoSuchThread → acted program.now.methods self.old thread Act.Go ≡ refused }
        ensures null { result ≡ Err StepFault.NullRead → acted program.now.methods self.old thread Act.Go ≡ null_read }
        ensures err { OnErr result (self.new ≡ self.old) }
    {
        let Some(call) = self.calls.get(thread) else {
            return Err(StepFault::NoSuchThread);
        };
        match action_at(program, &call) {
            Some(Action::Block(block)) => self.run_block(thread, &call, block),
            Some(Action::Copy { to, from, next }) => Ok(self.copy(
                thread, &call, *to, *from, *next,
            )),
            Some(Action::New { to, next }) => self.allocate(thread, &call, *to, *next),
            Some(Action::Return(answer)) => Ok(self.answer(program, thread, &call, *answer)),
            None => Err(StepFault::NoSuchThread),
        }
    }

    fn run_block(
        &mut self,
        thread: ThreadId,
        call: &Call,
        block: &Block,
    ) -> Result<Stepped, StepFault>
        requires pending { IsSome (map.get self.old.calls thread.0) }
        requires binds { All (λ d. d.to < VARIABLES) block.now.binds }
        requires writes { All HasRoom block.now.writes }
        ensures made { IfOk result (λ s. went_on self.old thread (block_run self.old.heap thread call.now block.now) ≡ stepped s.event self.new) }
        ensures null { OnErr result (went_on self.old thread (block_run self.old.heap thread call.now block.now) ≡ null_read) }
        ensures cause { IfErr result (λ e. e ≡ StepFault.NullRead) }
        ensures err { OnErr result (self.new ≡ self.old) }
    {
        match call.run(&mut self.heap, thread, block) {
            Some(next) => {
                self.calls.replace(thread, next);
                Ok(Stepped { event: None })
            }
            None => Err(StepFault::NullRead),
        }
    }

    fn copy(&mut self, thread: ThreadId, call: &Call, to: u8, from: Value, next: u32) -> Stepped
        requires pending { IsSome (map.get self.old.calls thread.0) }
        requires variable { to < VARIABLES }
        ensures { went_on self.old thread (Some (copied self.old.heap call.now to from next)) ≡ stepped result.event self.new }
    {
        let next = call.copy(&self.heap, to, from, next);
        self.calls.replace(thread, next);
        Stepped { event: None }
    }

    fn allocate(
        &mut self,
        thread: ThreadId,
        call: &Call,
        to: u8,
        next: u32,
    ) -> Result<Stepped, StepFault>
        requires few { length self.old.heap.nodes < 2 ^ 32 - 1 }
        requires pending { IsSome (map.get self.old.calls thread.0) }
        requires variable { to < VARIABLES }
        ensures made { IfOk result (λ s. went_on self.old thread (Some (allocated self.old.heap call.now to next)) ≡ stepped s.event self.new) }
        ensures cause { IfErr result (λ e. e ≡ StepFault.OutOfMemory) }
        ensures err { OnErr result (self.new ≡ self.old) }
    {
        match call.allocate(&mut self.heap, to, next) {
            Ok(next) => {
                self.calls.replace(thread, next);
                Ok(Stepped { event: None })
            }
            Err(_) => Err(StepFault::OutOfMemory),
        }
    }

    fn answer(&mut self, program: &Program, thread: ThreadId, call: &Call, answer: bool) -> Stepped
        ensures { performed program.now.methods self.old thread call.now (Action.Return answer) ≡ stepped result.event self.new }
    {
        self.calls.remove(thread);
        let event = match operation_of(program, call) {
            Some(_) => Some(Event::Respond { thread, answer }),
            None => None,
        };
        Stepped { event }
    }
}

// What the invocation of a method tells: nothing of an upkeep.
fn invocation(thread: ThreadId, kind: MethodKind, key: i64) -> Option<Event>
    ensures { result ≡ option_map (λ op. Event.Invoke thread op key) (operation kind) }
{
    match kind {
        MethodKind::Set(op) => Some(Event::Invoke { thread, op, key }),
        MethodKind::Upkeep => None,
    }
}

// The operation of the method of a call.
fn operation_of(program: &Program, call: &Call) -> Option<Op>
    ensures { result ≡ op_of program.now.methods call.now }
{
    match program.methods.as_slice().get(call.method as usize) {
        Some(method) => method.kind.operation(),
        None => None,
    }
}

// The action at the location of a call.
fn action_at<'a>(program: &'a Program, call: &Call) -> Option<&'a Action>
    ensures { option_copied result ≡ action_of program.now.methods call.now }
{
    match program.methods.as_slice().get(call.method as usize) {
        Some(method) => match method.locations.as_slice().get(call.location as usize) {
            Some(location) => Some(&location.action),
            None => None,
        },
        None => None,
    }
}
