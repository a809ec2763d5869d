ghost use Rattle.std.specs.Prelude.{◌≡◌, ◌&&◌};
ghost use Rattle.std.specs.List.{list_all};
ghost use Rattle.plank_pic.specs.declared.parts.Part.{Part};
ghost use Rattle.plank_pic.specs.Pictures.{holds_lock};
ghost use Rattle.plank_pic.specs.Blocks.{name, is_null, key_reads_null, pointer_reads_null, test_reads_null, pointed, one_value, test_holds, all_hold, one_fails, names_pointer, bind_is_read, block_runs, runs, comes_to_null};
ghost use Rattle.plank_prog.specs.Blocks.{written_node};
ghost use Rattle.plank_step.specs.Turns.{both_are, has_one_target, write_reaches, bind_reaches};
ghost use Rattle.plank_walk.specs.Settles.{Settles};

use crate::turns::{TakesTurn, key_term, name};
use plank_pic::{Part, Place};
use plank_prog::{
    Action, Bind, Block, FlagOperand, KeyOperand, PointerOperand, Reference, Test, Write,
};
use plank_walk::{Reader, compare};

// Whether a reference is null.
fn is_null<S: Reader, T: TakesTurn>(
    source: &S,
    turn: &T,
    reference: Reference,
    log: &mut S::Log,
) -> Result<bool, usize>
    ensures { Settles (λ full. is_null (T.turn turn.now) (S.picture source.now full) reference) (S.known source.now) result }
{
    source.says(
        Part::Null {
            name: name(turn, reference),
        },
        log,
    )
}

fn key_reads_null<S: Reader, T: TakesTurn>(
    source: &S,
    turn: &T,
    operand: KeyOperand,
    log: &mut S::Log,
) -> Result<bool, usize>
    ensures { Settles (λ full. key_reads_null (T.turn turn.now) (S.picture source.now full) operand) (S.known source.now) result }
{
    match operand {
        KeyOperand::Node(node) => is_null(source, turn, node, log),
        KeyOperand::Argument | KeyOperand::Min | KeyOperand::Max => Ok(false),
    }
}

fn pointer_reads_null<S: Reader, T: TakesTurn>(
    source: &S,
    turn: &T,
    operand: PointerOperand,
    log: &mut S::Log,
) -> Result<bool, usize>
    ensures { Settles (λ full. pointer_reads_null (T.turn turn.now) (S.picture source.now full) operand) (S.known source.now) result }
{
    match operand {
        PointerOperand::Field { node, .. } => is_null(source, turn, node, log),
        PointerOperand::Null | PointerOperand::Node(_) => Ok(false),
    }
}

/// Whether a test reads a field of null.
pub fn test_reads_null<S: Reader, T: TakesTurn>(
    source: &S,
    turn: &T,
    test: &Test,
    log: &mut S::Log,
) -> Result<bool, usize>
    ensures { Settles (λ full. test_reads_null (T.turn turn.now) (S.picture source.now full) test.now) (S.known source.now) result }
{
    match test {
        Test::Flag { flag, .. } => is_null(source, turn, flag.node, log),
        Test::Flags { left, right, .. } => Ok(
            is_null(source, turn, left.node, log)? || is_null(source, turn, right.node, log)?,
        ),
        Test::Keys { left, right, .. } => Ok(
            key_reads_null(source, turn, *left, log)? || key_reads_null(source, turn, *right, log)?,
        ),
        Test::Pointers { left, right, .. } => Ok(
            pointer_reads_null(source, turn, *left, log)?
                || pointer_reads_null(source, turn, *right, log)?,
        ),
        Test::LockFree { node } => is_null(source, turn, *node, log),
        Test::LockOwn { node } => is_null(source, turn, *node, log),
    }
}

// Whether a pointer of a test is null.
fn points_nowhere<S: Reader, T: TakesTurn>(
    source: &S,
    turn: &T,
    operand: PointerOperand,
    log: &mut S::Log,
) -> Result<bool, usize>
    ensures { Settles (λ full. (pointed (T.turn turn.now) (S.picture source.now full) operand).null) (S.known source.now) result }
{
    match operand {
        PointerOperand::Null => Ok(true),
        PointerOperand::Node(node) => is_null(source, turn, node, log),
        PointerOperand::Field { node, pointer } => {
            let at = Place {
                name: name(turn, node),
                pointer,
            };
            source.says(Part::PointerNull { at }, log)
        }
    }
}

// Whether a pointer of a test leads to the node that a name names.
fn points_to<S: Reader, T: TakesTurn>(
    source: &S,
    turn: &T,
    operand: PointerOperand,
    to: u8,
    log: &mut S::Log,
) -> Result<bool, usize>
    ensures { Settles (λ full. (pointed (T.turn turn.now) (S.picture source.now full) operand).is to) (S.known source.now) result }
{
    match operand {
        PointerOperand::Null => Ok(false),
        PointerOperand::Node(node) => {
            let left = name(turn, node);
            source.says(Part::Same { left, right: to }, log)
        }
        PointerOperand::Field { node, pointer } => {
            let at = Place {
                name: name(turn, node),
                pointer,
            };
            source.says(Part::Leads { at, to }, log)
        }
    }
}

// Whether both pointers lead to the node that a name names.
fn meet_at<S: Reader, T: TakesTurn>(
    source: &S,
    turn: &T,
    pointers: (PointerOperand, PointerOperand),
    to: u8,
    log: &mut S::Log,
) -> Result<bool, usize>
    ensures { Settles (λ full. both_are (pointed (T.turn turn.now) (S.picture source.now full) pointers.0) (pointed (T.turn turn.now) (S.picture source.now full) pointers.1) to) (S.known source.now) result }
{
    Ok(
        points_to(source, turn, pointers.0, to, log)?
            && points_to(source, turn, pointers.1, to, log)?,
    )
}

// Whether two pointers are one value.
fn have_one_value<S: Reader, T: TakesTurn>(
    source: &S,
    turn: &T,
    left: PointerOperand,
    right: PointerOperand,
    log: &mut S::Log,
) -> Result<bool, usize>
    ensures { Settles (λ full. one_value (S.frame source.now) (pointed (T.turn turn.now) (S.picture source.now full) left) (pointed (T.turn turn.now) (S.picture source.now full) right)) (S.known source.now) result }
{
    if points_nowhere(source, turn, left, log)? && points_nowhere(source, turn, right, log)? {
        return Ok(true);
    }
    have_one_target(source, turn, left, right, log)
}

// Whether two pointers lead to one named node.
#[tactic(auto, using(plank_pic::proofs::Below::none_below, plank_pic::proofs::Below::some_more))]
fn have_one_target<S: Reader, T: TakesTurn>(
    source: &S,
    turn: &T,
    left: PointerOperand,
    right: PointerOperand,
    log: &mut S::Log,
) -> Result<bool, usize>
    ensures { Settles (λ full. has_one_target (S.frame source.now) (pointed (T.turn turn.now) (S.picture source.now full) left) (pointed (T.turn turn.now) (S.picture source.now full) right)) (S.known source.now) result }
{
    for to in 0..source.names() {
        if meet_at(source, turn, (left, right), to, log)? {
            return Ok(true);
        }
    }
    Ok(false)
}

fn has_flag<S: Reader, T: TakesTurn>(
    source: &S,
    turn: &T,
    operand: FlagOperand,
    log: &mut S::Log,
) -> Result<bool, usize>
    ensures { Settles (λ full. S.picture source.now full (Part.Flag (name (T.turn turn.now) operand.node) operand.flag)) (S.known source.now) result }
{
    let name = name(turn, operand.node);
    source.says(
        Part::Flag {
            name,
            flag: operand.flag,
        },
        log,
    )
}

/// Whether the own thread, or else the other, has the lock of a node.
pub fn holds_lock<S: Reader>(
    source: &S,
    own: bool,
    name: u8,
    log: &mut S::Log,
) -> Result<bool, usize>
    ensures { Settles (λ full. holds_lock (S.picture source.now full) own name) (S.known source.now) result }
{
    if !source.says(Part::Locked { name }, log)? {
        return Ok(false);
    }
    if own {
        return source.says(Part::LockMine { name }, log);
    }
    Ok(!source.says(Part::LockMine { name }, log)? && source.says(Part::LockOthers { name }, log)?)
}

/// Whether a test holds, where it reads no field of null.
pub fn test_holds<S: Reader, T: TakesTurn>(
    source: &S,
    turn: &T,
    test: &Test,
    log: &mut S::Log,
) -> Result<bool, usize>
    ensures { Settles (λ full. test_holds (S.frame source.now) (T.turn turn.now) (S.picture source.now full) test.now) (S.known source.now) result }
{
    match test {
        Test::Flag { flag, set } => Ok(has_flag(source, turn, *flag, log)? == *set),
        Test::Flags { left, right, equal } => {
            let left = has_flag(source, turn, *left, log)?;
            Ok((left == has_flag(source, turn, *right, log)?) == *equal)
        }
        Test::Keys {
            left,
            relation,
            right,
        } => compare(
            source,
            key_term(turn, *left),
            *relation,
            key_term(turn, *right),
            log,
        ),
        Test::Pointers { left, right, equal } => {
            Ok(have_one_value(source, turn, *left, *right, log)? == *equal)
        }
        Test::LockFree { node } => {
            let name = name(turn, *node);
            Ok(!source.says(Part::Locked { name }, log)?)
        }
        Test::LockOwn { node } => holds_lock(source, turn.is_mine(), name(turn, *node), log),
    }
}

/// Whether each test holds and none reads a field of null.
pub fn all_hold<S: Reader, T: TakesTurn>(
    source: &S,
    turn: &T,
    tests: &[Test],
    log: &mut S::Log,
) -> Result<bool, usize>
    ensures { Settles (λ full. all_hold (S.frame source.now) (T.turn turn.now) (S.picture source.now full) tests.now) (S.known source.now) result }
{
    for test in tests {
        if test_reads_null(source, turn, test, log)? {
            return Ok(false);
        }
        if !test_holds(source, turn, test, log)? {
            return Ok(false);
        }
    }
    Ok(true)
}

/// Whether a test fails that is reached: those before it hold, and none reads a field of null.
pub fn one_fails<S: Reader, T: TakesTurn>(
    source: &S,
    turn: &T,
    tests: &[Test],
    log: &mut S::Log,
) -> Result<bool, usize>
    ensures { Settles (λ full. one_fails (S.frame source.now) (T.turn turn.now) (S.picture source.now full) tests.now) (S.known source.now) result }
{
    for test in tests {
        if test_reads_null(source, turn, test, log)? {
            return Ok(false);
        }
        if !test_holds(source, turn, test, log)? {
            return Ok(true);
        }
    }
    Ok(false)
}

// Whether a name is of the node to which a pointer leads, or null where that is.
fn names_pointer<S: Reader>(
    source: &S,
    at: Place,
    name: u8,
    log: &mut S::Log,
) -> Result<bool, usize>
    ensures { Settles (λ full. names_pointer (S.picture source.now full) at name) (S.known source.now) result }
{
    if source.says(Part::PointerNull { at }, log)? {
        source.says(Part::Null { name }, log)
    } else {
        source.says(Part::Leads { at, to: name }, log)
    }
}

/// Whether what a bind reads has its name, where the variable has one.
pub fn bind_is_read<S: Reader, T: TakesTurn>(
    source: &S,
    turn: &T,
    bind: Bind,
    log: &mut S::Log,
) -> Result<bool, usize>
    ensures { Settles (λ full. bind_is_read (T.turn turn.now) (S.picture source.now full) bind) (S.known source.now) result }
{
    if is_null(source, turn, bind.from, log)? {
        return Ok(false);
    }
    if turn.name_of(Reference::Variable(bind.to)).is_none() {
        return Ok(true);
    }
    let at = Place {
        name: name(turn, bind.from),
        pointer: bind.pointer,
    };
    names_pointer(source, at, turn.read_by(bind.to), log)
}

fn binds_are_read<S: Reader, T: TakesTurn>(
    source: &S,
    turn: &T,
    binds: &[Bind],
    log: &mut S::Log,
) -> Result<bool, usize>
    ensures { Settles (λ full. list_all (bind_is_read (T.turn turn.now) (S.picture source.now full)) binds.now) (S.known source.now) result }
{
    for bind in binds {
        if !bind_is_read(source, turn, *bind, log)? {
            return Ok(false);
        }
    }
    Ok(true)
}

/// The node that a write writes.
pub fn written_node(write: Write) -> Reference
    ensures { result ≡ written_node write }
{
    match write {
        Write::Flag { node, .. }
        | Write::Pointer { node, .. }
        | Write::TakeLock { node }
        | Write::FreeLock { node } => node,
    }
}

// Whether no write is of null.
fn writes_reach<S: Reader, T: TakesTurn>(
    source: &S,
    turn: &T,
    writes: &[Write],
    log: &mut S::Log,
) -> Result<bool, usize>
    ensures { Settles (λ full. list_all (write_reaches (T.turn turn.now) (S.picture source.now full)) writes.now) (S.known source.now) result }
{
    for write in writes {
        if is_null(source, turn, written_node(*write), log)? {
            return Ok(false);
        }
    }
    Ok(true)
}

// Whether no bind reads null.
fn binds_reach<S: Reader, T: TakesTurn>(
    source: &S,
    turn: &T,
    binds: &[Bind],
    log: &mut S::Log,
) -> Result<bool, usize>
    ensures { Settles (λ full. list_all (bind_reaches (T.turn turn.now) (S.picture source.now full)) binds.now) (S.known source.now) result }
{
    for bind in binds {
        if is_null(source, turn, bind.from, log)? {
            return Ok(false);
        }
    }
    Ok(true)
}

/// Whether a block takes the turn's exit and reads no field of null.
pub fn block_runs<S: Reader, T: TakesTurn>(
    source: &S,
    turn: &T,
    block: &Block,
    log: &mut S::Log,
) -> Result<bool, usize>
    ensures { Settles (λ full. block_runs (S.frame source.now) (T.turn turn.now) (S.picture source.now full) block.now) (S.known source.now) result }
{
    if !turn.is_yes() {
        return one_fails(source, turn, block.tests.as_slice(), log);
    }
    Ok(
        all_hold(source, turn, block.tests.as_slice(), log)?
            && binds_are_read(source, turn, block.binds.as_slice(), log)?
            && writes_reach(source, turn, block.writes.as_slice(), log)?,
    )
}

/// Whether the turn's action takes its exit and reads no field of null.
pub fn runs<S: Reader, T: TakesTurn>(source: &S, turn: &T, log: &mut S::Log) -> Result<bool, usize>
    ensures { Settles (λ full. runs (S.frame source.now) (T.turn turn.now) (S.picture source.now full)) (S.known source.now) result }
{
    match turn.action() {
        Action::Block(block) => block_runs(source, turn, block, log),
        Action::Copy { .. } | Action::New { .. } => Ok(turn.is_yes()),
        Action::Return(_) => Ok(false),
    }
}

/// Whether a block comes to a read or a write of a field of null.
pub fn comes_to_null<S: Reader, T: TakesTurn>(
    source: &S,
    turn: &T,
    block: &Block,
    log: &mut S::Log,
) -> Result<bool, usize>
    ensures { Settles (λ full. comes_to_null (S.frame source.now) (T.turn turn.now) (S.picture source.now full) block.now) (S.known source.now) result }
{
    if one_fails(source, turn, block.tests.as_slice(), log)? {
        return Ok(false);
    }
    let runs = all_hold(source, turn, block.tests.as_slice(), log)?
        && binds_reach(source, turn, block.binds.as_slice(), log)?
        && writes_reach(source, turn, block.writes.as_slice(), log)?;
    Ok(!runs)
}
