ghost use Rattle.std.specs.Prelude.{◌≡◌, ◌≤◌, List, ℕ, map, length, Some, None, IfOk};
ghost use Rattle.std.specs.String.{string_bytes};
ghost use Rattle.plank_io.specs.Whole.{GivesAll};
ghost use Rattle.plank_words.specs.declared.commands.Command.{Command};
ghost use Rattle.plank_words.specs.declared.commands.Asked.TheVariants.{Serve, Large};
ghost use Rattle.plank_words.specs.Words.{asked_by};
ghost use Rattle.plank_top.specs.Answers.{refusal, IsLargeAnswer};
ghost use Rattle.plank_top.specs.Replies.{answer_in};
ghost use Rattle.plank_top.specs.Endings.{Ends, Concludes, Serves, told};
ghost use Rattle.plank_top.specs.Commands.{Answers, EndsOnTaken};
ghost use Rattle.plank_top.specs.Soundness.{IsSound, IsGiven};

use crate::crews::Crew;
use crate::replies::{Reply, Telling, judge_bytes, judge_large, print, refuse};
use crate::status::Status;
use crate::traced::trace;
use plank_base::{BYTES_LIMIT, OutOfMemory, Thing};
use plank_io::{Gate, Reading, Sink, Source, Written, read_up_to, write_all};
use plank_verdict::laws::accepted_runs_law;
use plank_words::{Asked, Command, WordsFault, asked_by};
use std::alloc::Global;
use std::marker::Sync;
use std::thread::Threads;

/// How many workers judge a large text.
const LARGE_WORKERS: u32 = 4;

/// Writes a reply whole, and answers its status or the sink's fault.
fn finish<K: Sink>(sink: &mut K, reply: &Reply) -> Status
    ensures { Ends (told (K.taken sink.old) (K.taken sink.new) (K.faults sink.old) (K.faults sink.new)) result (answer_in reply.now) }
{
    match write_all(sink, &reply.output) {
        Written::Whole => reply.status,
        Written::Failed(_) => Status::WriteFault,
    }
}

/// Refuses with one line.
fn end_refused<K: Sink>(alloc: Global, sink: &mut K, status: Status) -> Status
    ensures { Ends (told (K.taken sink.old) (K.taken sink.new) (K.faults sink.old) (K.faults sink.new)) result (refusal status) }
{
    match refuse(alloc, status) {
        Ok(reply) => finish(sink, &reply),
        Err(OutOfMemory) => Status::OutOfMemory,
    }
}

/// What a command is to say to a whole text.
fn reply_to<R: Threads + Sync, G: Gate>(
    alloc: Global,
    command: Command,
    text: &[u8],
    crew: &Crew<'_, R, G>,
) -> Result<Reply, OutOfMemory>
    requires { length text.now ≤ BYTES_LIMIT }
    ensures { IfOk result (λ r. Answers command text.now (answer_in r)) }
{
    match command {
        Command::Verify => judge_bytes(alloc, text, Telling::Whole, crew),
        Command::Effects => judge_bytes(alloc, text, Telling::WithoutVerdict, crew),
        Command::Print => print(alloc, text),
        Command::Trace => trace(alloc, text),
    }
}

/// Answers a whole text.
fn conclude<R: Threads + Sync, G: Gate, K: Sink>(
    alloc: Global,
    command: Command,
    text: &[u8],
    crew: &Crew<'_, R, G>,
    sink: &mut K,
) -> Status
    requires { length text.now ≤ BYTES_LIMIT }
    ensures { Concludes (Answers command text.now) (told (K.taken sink.old) (K.taken sink.new) (K.faults sink.old) (K.faults sink.new)) result }
{
    match reply_to(alloc, command, text, crew) {
        Ok(reply) => finish(sink, &reply),
        Err(OutOfMemory) => Status::OutOfMemory,
    }
}

/// Reads a text and answers it.
fn serve<R: Threads + Sync, G: Gate, S: Source, K: Sink>(
    alloc: Global,
    command: Command,
    crew: &Crew<'_, R, G>,
    source: &mut S,
    sink: &mut K,
) -> Status
    ensures { Serves command
        (told (S.left source.old) (S.left source.new) (S.faults source.old) (S.faults source.new))
        (told (K.taken sink.old) (K.taken sink.new) (K.faults sink.old) (K.faults sink.new))
        result }
{
    match read_up_to(alloc, source, BYTES_LIMIT as usize) {
        Ok(Reading::Whole(text)) => conclude(alloc, command, &text, crew, sink),
        Ok(Reading::Over(_)) => {
            let too_large = Status::TooLarge(Thing::Bytes, BYTES_LIMIT + 1, BYTES_LIMIT);
            end_refused(alloc, sink, too_large)
        }
        Ok(Reading::Failed) => Status::ReadFault,
        Err(OutOfMemory) => Status::OutOfMemory,
    }
}

/// Judges the large text of so many methods, and tells the summary.
fn tell_large<R: Threads + Sync, G: Gate, K: Sink>(
    alloc: Global,
    methods: u32,
    crew: &Crew<'_, R, G>,
    sink: &mut K,
) -> Status
    requires { (2 ≤ methods) × (methods ≤ 16) }
    ensures { Concludes (IsLargeAnswer methods) (told (K.taken sink.old) (K.taken sink.new) (K.faults sink.old) (K.faults sink.new)) result }
{
    match judge_large(alloc, methods, crew) {
        Ok(reply) => finish(sink, &reply),
        Err(OutOfMemory) => Status::OutOfMemory,
    }
}

/// The call that the program makes: does what the words ask for, and writes a report, a text, a summary or the
/// line of a refusal to the sink.
///
/// The words are those of a command line without the program's name. At most 131,073 bytes are read, in
/// pieces of at most 4,096, and nothing is written before the whole output is made. Where memory is
/// refused, nothing was written. One worker judges in the thread of the call. Of several, each finds marks in a
/// thread of its own where one can be had, and passes the gate before it runs a method.
pub fn top<R: Threads + Sync, S: Source, K: Sink, G: Gate>(
    rt: &R,
    alloc: Global,
    words: &[String],
    source: &mut S,
    sink: &mut K,
    gate: &G,
) -> Status
    // Words that ask for nothing are refused, and nothing is read.
    ensures usage { asked_by (map string_bytes words.now) ≡ None →
        (source.new ≡ source.old)
        × Ends (told (K.taken sink.old) (K.taken sink.new) (K.faults sink.old) (K.faults sink.new)) result (refusal Status.Usage) }

    // Each answer to a command has its cause, whatever the number of workers, the gate and the order of their steps.
    ensures served { (command : Command) (workers : ℕ) → asked_by (map string_bytes words.now) ≡ Some (Serve command workers) →
        Serves command
        (told (S.left source.old) (S.left source.new) (S.faults source.old) (S.faults source.new))
        (told (K.taken sink.old) (K.taken sink.new) (K.faults sink.old) (K.faults sink.new))
        result }

    // A large text is made and judged, its summary is told, and nothing is read.
    ensures made { (methods : ℕ) → asked_by (map string_bytes words.now) ≡ Some (Large methods) →
        (source.new ≡ source.old)
        × Concludes (IsLargeAnswer methods) (told (K.taken sink.old) (K.taken sink.new) (K.faults sink.old) (K.faults sink.new)) result }

    // Accepted is said of a text alone whose every run of any number of threads has a history that is
    // linearizable to a set, and comes to no read or write of a field of null.
    ensures sound { result ≡ Status.Accepted →
        (text : List ℕ) × GivesAll (S.left source.old) (S.left source.new) BYTES_LIMIT text × IsSound text }

    // A text that the command takes is answered with more than a refusal, unless the source or the sink fails, or
    // memory is refused: `verify` gives a verdict on a text of the grammar that is well typed and within the limits,
    // `effects` tells its effects, and `print` writes any text of the grammar.
    ensures complete { (command : Command) (workers : ℕ) → asked_by (map string_bytes words.now) ≡ Some (Serve command workers) →
        IsGiven command (told (S.left source.old) (S.left source.new) (S.faults source.old) (S.faults source.new))
        (told (K.taken sink.old) (K.taken sink.new) (K.faults sink.old) (K.faults sink.new)) →
        EndsOnTaken command result }
{
    accepted_runs_law();
    match asked_by(alloc, words) {
        Ok(Asked::Serve(command, workers)) => {
            let crew = Crew { rt, workers, gate };
            serve(alloc, command, &crew, source, sink)
        }
        Ok(Asked::Large(methods)) => {
            let crew = Crew {
                rt,
                workers: LARGE_WORKERS,
                gate,
            };
            tell_large(alloc, methods, &crew, sink)
        }
        Err(WordsFault::Usage) => end_refused(alloc, sink, Status::Usage),
        Err(WordsFault::OutOfMemory) => Status::OutOfMemory,
    }
}
