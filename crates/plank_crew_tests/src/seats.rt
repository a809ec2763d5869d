// Seats that take turns at a board.
ghost use Rattle.std.specs.Prelude.{◌≡◌, ◌+◌, ◌*◌, ◌<◌, ◌≤◌, All, length, IfOk, OnOk};
ghost use Rattle.plank_crew.specs.Names.{IsNameOf};
ghost use Rattle.plank_crew_tests.specs.Players.{HasLook};

use crate::shapes::relay;
use crate::tables::Table;
use plank_base::OutOfMemory;
use plank_bits::{MarkWords, Steps};
use plank_board::{Board, Forcing, Named, Posted, Quiet, Seat};
use std::alloc::Global;
use std::marker::Brand;
use std::process::Abort;
use std::sync::ledger::{Blank, Ledger};
use std::test::Fail;

// A seat, and the words of its last look.
#[derive(Drop)]
pub(crate) struct Player<N: Named> {
    pub(crate) seat: Seat<N>,
    pub(crate) look: MarkWords,
}

// What a player does: it looks, posts what a method forces at its look, or asks whether all is quiet.
#[derive(Clone, Copy)]
enum Move {
    Look,
    Post(u32),
    Ask,
}

// The first word of a look, what became of a post, whether all is quiet.
#[derive(Clone, Copy, Debug, PartialEq, Eq)]
enum Told {
    Seen(u64),
    Posted(Posted),
    Quiet(Quiet),
}

// A player that has looked.
pub(crate) fn sit<N: Named>(
    alloc: Global,
    board: &Board<N>,
    seat: Seat<N>,
    words: u32,
) -> Result<Player<N>, OutOfMemory>
    requires board { seat.table ≡ board.now.table }
    requires parts { seat.view.parts ≡ 1 }
    requires words { words ≡ N.words }
    ensures { IfOk result (λ p. HasLook board.now.table N.words p.seat p.look) }
{
    let mut seat = seat;
    let mut look = MarkWords::new(alloc, words)?;
    board.look(&mut seat, &mut look);
    Ok(Player { seat, look })
}

pub(crate) fn post<N: Named, F: Forcing, L: Ledger>(
    alloc: Global,
    forcing: &F,
    board: &Board<N>,
    player: &mut Player<N>,
    m: u32,
    steps: &mut Steps<L>,
) -> Result<Posted, OutOfMemory>
    requires name { IsNameOf N.methods N.words N.forces N.still (F.method_count forcing.now) (F.word_count forcing.now) (F.forces forcing.now) (F.still forcing.now) }
    requires method { m < N.methods }
    requires player { HasLook board.now.table N.words player.old.seat player.old.look }
    ensures { HasLook board.now.table N.words player.new.seat player.new.look }
{
    let found = forcing.force(alloc, m, &player.look, steps)?;
    Ok(board.post(&mut player.seat, m, &found))
}

fn play<N: Named, F: Forcing, L: Ledger>(
    alloc: Global,
    forcing: &F,
    board: &Board<N>,
    player: &mut Player<N>,
    next: Move,
    steps: &mut Steps<L>,
) -> Result<Told, OutOfMemory>
    requires name { IsNameOf N.methods N.words N.forces N.still (F.method_count forcing.now) (F.word_count forcing.now) (F.forces forcing.now) (F.still forcing.now) }
    requires sizes { (0 < N.methods) × (0 < N.words) }
    requires player { HasLook board.now.table N.words player.old.seat player.old.look }
    ensures { HasLook board.now.table N.words player.new.seat player.new.look }
{
    match next {
        Move::Look => {
            board.look(&mut player.seat, &mut player.look);
            Ok(Told::Seen(player.look.word(0)))
        }
        Move::Post(m) => {
            let m = m % forcing.methods();
            Ok(Told::Posted(post(alloc, forcing, board, player, m, steps)?))
        }
        Move::Ask => Ok(Told::Quiet(board.quiet(&mut player.seat))),
    }
}

// What each player does in turn, the first of which is a, and what it is told.
fn moves() -> [(bool, Move, Told); 12] {
    [
        (true, Move::Look, Told::Seen(0)),
        (false, Move::Look, Told::Seen(0)),
        (true, Move::Post(0), Told::Posted(Posted::Grown)),
        (false, Move::Post(0), Told::Posted(Posted::Known)),
        (false, Move::Look, Told::Seen(1)),
        (false, Move::Ask, Told::Quiet(Quiet::Still(0))),
        (false, Move::Post(1), Told::Posted(Posted::Grown)),
        (true, Move::Look, Told::Seen(3)),
        (true, Move::Post(0), Told::Posted(Posted::Settled)),
        (true, Move::Post(1), Told::Posted(Posted::Settled)),
        (true, Move::Ask, Told::Quiet(Quiet::All(2))),
        (false, Move::Ask, Told::Quiet(Quiet::Moved(2))),
    ]
}

// Two players take turns.
fn take_turns<N: Named, F: Forcing, L: Ledger>(
    rt: &impl Abort,
    alloc: Global,
    forcing: &F,
    board: &Board<N>,
    a: &mut Player<N>,
    b: &mut Player<N>,
    steps: &mut Steps<L>,
) -> Result<(), OutOfMemory>
    requires name { IsNameOf N.methods N.words N.forces N.still (F.method_count forcing.now) (F.word_count forcing.now) (F.forces forcing.now) (F.still forcing.now) }
    requires sizes { (0 < N.methods) × (0 < N.words) }
    requires a { HasLook board.now.table N.words a.old.seat a.old.look }
    requires b { HasLook board.now.table N.words b.old.seat b.old.look }
    ensures a { HasLook board.now.table N.words a.new.seat a.new.look }
    ensures b { HasLook board.now.table N.words b.new.seat b.new.look }
{
    for (by_first, next, want) in moves() {
        let told = if by_first {
            play(alloc, forcing, board, a, next, steps)?
        } else {
            play(alloc, forcing, board, b, next, steps)?
        };
        assert_eq!(rt; told, want);
    }
    Ok(())
}

// Two players at one board, who give the marks in the end.
fn play_both<N: Named, F: Forcing, L: Ledger>(
    rt: &impl Abort,
    alloc: Global,
    forcing: &F,
    blank: Blank,
) -> Result<MarkWords, OutOfMemory>
    requires name { IsNameOf N.methods N.words N.forces N.still (F.method_count forcing.now) (F.word_count forcing.now) (F.forces forcing.now) (F.still forcing.now) }
    requires sizes { (0 < N.methods) × (0 < N.words) }
    requires blank { (blank.name ≡ L.name) × (blank.parts ≡ L.parts) × (0 < blank.parts) }
    ensures { IfOk result (λ marks. length marks ≡ N.words) }
{
    let mut steps = Steps::<L>::new(blank);
    let (board, mut seat) = Board::<N>::new(alloc, forcing, 2)?;
    let other = board.split(alloc, &mut seat)?;
    let mut a = sit(alloc, &board, seat, forcing.words())?;
    let mut b = sit(alloc, &board, other, forcing.words())?;
    take_turns(rt, alloc, forcing, &board, &mut a, &mut b, &mut steps)?;
    let mut last = a.seat;
    board.join(&mut last, b.seat);
    Ok(board.close(last))
}

fn play_named<N: Named, F: Forcing>(
    rt: &impl Abort,
    alloc: Global,
    forcing: &F,
) -> Result<MarkWords, OutOfMemory>
    requires name { IsNameOf N.methods N.words N.forces N.still (F.method_count forcing.now) (F.word_count forcing.now) (F.forces forcing.now) (F.still forcing.now) }
    requires sizes { (0 < N.methods) × (0 < N.words) }
    ensures { IfOk result (λ marks. length marks ≡ N.words) }
{
    play_both::<N, F, Brand>(rt, alloc, forcing, Blank::new(1))
}

fn play_of<F: Forcing>(
    rt: &impl Abort,
    alloc: Global,
    forcing: &F,
) -> Result<MarkWords, OutOfMemory>
    requires { (0 < F.method_count forcing.now) × (0 < F.word_count forcing.now) }
    ensures { IfOk result (λ marks. length marks ≡ F.word_count forcing.now) }
{
    play_named::<Brand, F>(rt, alloc, forcing)
}

#[test]
fn players_in_turn_are_told_what_became_of_their_posts(rt: HostRuntime) -> Result<(), Fail> {
    let table = relay(rt.alloc())?;
    let marks = play_of(&rt, rt.alloc(), &table)?;
    assert_eq!(rt; marks.word(0), 3);
    Ok(())
}
