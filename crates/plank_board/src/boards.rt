ghost use Rattle.std.specs.Prelude.{◌≡◌, ◌+◌, ◌-◌, ◌<◌, ◌≤◌, ◌↔◌, ℕ, Bool, length, replicate, slice_index, IfOk, IfErr};
ghost use Rattle.std.specs.Mem.Slots.{slots_items, slots_len, IsFull};
ghost use Rattle.plank_bits.specs.Words.{has, IsWithin};
ghost use Rattle.plank_bits.specs.Forced.{IsLeast};
ghost use Rattle.plank_board.specs.Events.{newcomer, kept_part, given_part, joined, spent};
ghost use Rattle.plank_board.specs.Rule.{AreForced};
ghost use Rattle.plank_board.specs.Seats.{Sits};
ghost use Rattle.plank_board.specs.Stills.{AreStill};
ghost use Rattle.plank_board.specs.Words.{mark_word};

use crate::forcings::Forcing;
use crate::names::Named;
use crate::seats::Seat;
use crate::table::{Joins, Splits, Words};
use atomic_table::Closed;
use plank_base::OutOfMemory;
use plank_bits::MarkWords;
use std::alloc::Global;
use std::marker::{Model, PhantomData};

/// A board of atomic words for workers that grow one set of marks: an epoch, a settled word for each
/// method, and the words of marks.
///
/// Its calls lock nothing and try nothing again. Contracts see which board it is, and for how many seats.
#[derive(Drop)]
pub struct Board<N: Named> {
    pub(crate) table: Words<N>,
    pub(crate) methods: u32,
    pub(crate) words: u32,
    // The memory of the words that `close` gives.
    pub(crate) last: MarkWords,
}

impl<N: Named> Model for Board<N> {
    ghost use Rattle.std.specs.Prelude.{◌≡◌, ◌+◌, length};
    ghost use Rattle.plank_board.specs.Seats.{Which};

    ghost Value = { Which };

    ghost view = { λ b. record { table = b.table.shared.table_id; seats = b.table.shared.key } };

    ghost invariant = { λ b. (b.table.shared.table_id.words ≡ N.methods + 1 + N.words)
        × (b.table.shared.table_id.slots ≡ 0) × (b.methods ≡ N.methods) × (b.words ≡ N.words)
        × (length b.last ≡ N.words) };
}

fn zeros(alloc: Global, count: usize) -> Result<Vec<u64>, OutOfMemory>
    ensures { IfOk result (λ v. v.items ≡ replicate count 0) }
{
    match vec![in alloc; 0; count] {
        Ok(zeros) => Ok(zeros),
        Err(_) => Err(OutOfMemory),
    }
}

fn no_marks(alloc: Global, words: u32) -> Result<MarkWords, OutOfMemory>
    ensures { IfOk result (λ marks. marks ≡ replicate words 0) }
{
    let mut marks = MarkWords::new(alloc, words)?;
    for i in 0..words {
        marks.put_word(i, 0);
    }
    Ok(marks)
}

fn copied(alloc: Global, marks: &MarkWords) -> Result<MarkWords, OutOfMemory>
    ensures { IfOk result (λ copy. copy ≡ marks.now) }
{
    let mut copy = MarkWords::new(alloc, marks.len())?;
    for i in 0..marks.len() {
        copy.put_word(i, marks.word(i));
    }
    Ok(copy)
}

// Copies the words of marks, which stand behind those of so many methods.
fn copy_marks(closed: &Closed<(), Global>, methods: u32, last: &mut MarkWords)
    requires full { IsFull closed.now.words }
    requires size { slots_len closed.now.words ≡ methods + 1 + length last.old }
    ensures size { length last.new ≡ length last.old }
    ensures marks { (j : ℕ) → j < length last.old →
        slice_index last.new j ≡ mark_word methods (slots_items closed.now.words) j }
{
    for i in 0..last.len() {
        last.put_word(i, closed.word(methods as usize + 1 + i as usize));
    }
}

impl<N: Named> Board<N> {
    /// A board without marks, and a seat that has all its parts. The forcing is the one that N names.
    pub fn new<F: Forcing>(
        alloc: Global,
        forcing: &F,
        seats: u32,
    ) -> Result<(Board<N>, Seat<N>), OutOfMemory>
        requires methods { N.methods ≡ F.method_count forcing.now }
        requires words { N.words ≡ F.word_count forcing.now }
        requires forces { (m : ℕ) (marks : ℕ → Bool) (k : ℕ) → N.forces m marks k ↔ F.forces forcing.now m marks k }
        requires still { (m : ℕ) (marks : ℕ → Bool) → N.still m marks ↔ F.still forcing.now m marks }
        requires seats { (0 < seats) × (seats ≤ 64) }
        ensures board { IfOk result (λ r. (r.0.seats ≡ seats) × (r.1.table ≡ r.0.table)) }
        ensures seat { IfOk result (λ r. r.1.view ≡ newcomer N.methods N.words seats) }
        ensures sits { IfOk result (λ r. Sits N.methods N.words N.forces r.1.view) }
    {
        let methods = forcing.methods();
        let words = forcing.words();
        let last = MarkWords::new(alloc, words)?;
        let look = no_marks(alloc, words)?;
        let noted = zeros(alloc, methods as usize)?;
        let all = zeros(alloc, methods as usize + 1 + words as usize)?;
        match Words::<N>::of_words(alloc, all.as_slice(), &(seats as u64)) {
            Ok((table, place)) => Ok((
                Board {
                    table,
                    methods,
                    words,
                    last,
                },
                Seat {
                    place,
                    epoch: 0,
                    look,
                    noted,
                    of: PhantomData,
                },
            )),
            Err(_) => Err(OutOfMemory),
        }
    }

    /// Cuts a part off a seat, as a seat of its own that has seen the same.
    pub fn split(&self, alloc: Global, seat: &mut Seat<N>) -> Result<Seat<N>, OutOfMemory>
        requires board { seat.old.table ≡ self.now.table }
        requires parts { 1 < seat.old.view.parts }
        ensures same { IfErr result (λ _. seat.new ≡ seat.old) }
        ensures board { (seat.new.table ≡ seat.old.table) × IfOk result (λ r. r.table ≡ seat.old.table) }
        ensures kept { IfOk result (λ _. seat.new.view ≡ kept_part seat.old.view) }
        ensures given { IfOk result (λ r. r.view ≡ given_part seat.old.view) }
    {
        let look = copied(alloc, &seat.look)?;
        let Ok(noted) = Vec::from_slice(alloc, seat.noted.as_slice()) else {
            return Err(OutOfMemory);
        };
        let epoch = seat.epoch;
        let place = self.table.shared.split_seat::<Splits>(&mut seat.place);
        Ok(Seat {
            place,
            epoch,
            look,
            noted,
            of: PhantomData,
        })
    }

    /// Takes another seat in: its parts, the marks that it has seen, and the later of both last raises and of
    /// both leavings. The look stays.
    pub fn join(&self, seat: &mut Seat<N>, other: Seat<N>)
        requires board { seat.old.table ≡ self.now.table }
        requires other { other.table ≡ self.now.table }
        ensures board { seat.new.table ≡ seat.old.table }
        ensures joined { seat.new.view ≡ joined seat.old.view other.view }
    {
        let Seat { place, .. } = other;
        self.table.shared.join_seat::<Joins>(&mut seat.place, place);
    }

    /// The words of marks, once there is no other seat. They are the least closed set, at which every method
    /// is still, where the seat left after its last raise and those of all that it took in.
    pub fn close(self, seat: Seat<N>) -> MarkWords
        requires board { seat.table ≡ self.table }
        requires parts { seat.view.parts ≡ self.seats }
        ensures words { length result ≡ N.words }
        ensures seen { IsWithin (has seat.view.marks) (has result) }
        ensures forced { AreForced N.methods N.words N.forces (has result) }
        ensures least { seat.view.raised < seat.view.left → IsLeast N.forces N.methods (has result) }
        ensures still { seat.view.raised < seat.view.left → AreStill N.still N.methods (has result) }
    {
        let Board {
            table,
            methods,
            words: _,
            mut last,
        } = self;
        let Seat { place, .. } = seat;
        let closed = table.close_with(place);
        copy_marks(&closed, methods, &mut last);
        closed.free();
        last
    }
}
