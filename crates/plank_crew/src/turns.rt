//! Which methods are worth a run soon. Hints: whatever is said here, all that are behind are run in the end.
ghost use Rattle.std.specs.Prelude.{◌≡◌, ◌+◌, ◌*◌, ◌<◌, ◌≤◌, true, IfSome};
ghost use Rattle.plank_crew.specs.Turns.{IsBehind};

use plank_base::OutOfMemory;
use plank_bits::MarkWords;
use plank_board::{Forcing, Named, Seat};
use std::alloc::Global;

/// Which methods are quick, and which are due: a mark that may wake one was new after its last run by this
/// worker.
#[derive(Drop)]
pub(crate) struct Turns {
    quick: Vec<bool>,
    due: Vec<bool>,
    // The marks that were noted.
    seen: MarkWords,
    // Where the worker is in its round of quick methods, and where in that of the others.
    quick_place: u32,
    other_place: u32,
}

fn flags(alloc: Global, count: u32, flag: bool) -> Result<Vec<bool>, OutOfMemory> {
    match vec![in alloc; flag; count as usize] {
        Ok(flags) => Ok(flags),
        Err(_) => Err(OutOfMemory),
    }
}

fn is_so(flags: &[bool], m: u32) -> bool {
    match flags.get(m as usize) {
        Some(flag) => *flag,
        None => false,
    }
}

fn set_flag(flags: &mut [bool], m: u32, flag: bool) {
    if (m as usize) < flags.len() {
        flags[m as usize] = flag;
    }
}

impl Turns {
    /// Every method is due. The rounds begin at this one.
    pub(crate) fn new<F: Forcing>(
        alloc: Global,
        forcing: &F,
        first: u32,
    ) -> Result<Turns, OutOfMemory> {
        let methods = forcing.methods();
        let mut quick = flags(alloc, methods, false)?;
        for m in 0..methods {
            set_flag(quick.as_mut_slice(), m, forcing.is_quick(m));
        }
        Ok(Turns {
            quick,
            due: flags(alloc, methods, true)?,
            seen: MarkWords::new(alloc, forcing.words())?,
            quick_place: first,
            other_place: first,
        })
    }

    /// The worker runs the method.
    pub(crate) fn begin(&mut self, m: u32) {
        set_flag(self.due.as_mut_slice(), m, false);
        if is_so(self.quick.as_slice(), m) {
            self.quick_place = m;
        } else {
            self.other_place = m;
        }
    }

    // Some mark of the word is new; what the last method found does not wake it.
    fn note_set<F: Forcing>(&mut self, forcing: &F, word: u32, last: u32) {
        for m in 0..forcing.methods() {
            if m != last && forcing.is_woken(m, word) {
                set_flag(self.due.as_mut_slice(), m, true);
            }
        }
    }

    fn note_word<F: Forcing>(&mut self, forcing: &F, look: &MarkWords, i: u32, last: u32) {
        if i < self.seen.len() && i < look.len() && self.seen.word(i) != look.word(i) {
            self.seen.put_word(i, look.word(i));
            self.note_set(forcing, i, last);
        }
    }

    /// The worker has looked after a run of the last method: what new marks may wake is due.
    pub(crate) fn note_look<F: Forcing>(&mut self, forcing: &F, look: &MarkWords, last: u32) {
        for i in 0..look.len() {
            self.note_word(forcing, look, i, last);
        }
    }

    /// What the seat has noted to be settled is not due.
    pub(crate) fn note_settled<N: Named>(&mut self, seat: &Seat<N>, methods: u32)
        requires { methods ≡ N.methods }
    {
        for m in 0..methods {
            if !seat.is_behind(m) {
                set_flag(self.due.as_mut_slice(), m, false);
            }
        }
    }

    /// The first quick method from this one on, or else this one.
    pub(crate) fn first_quick(&self, from: u32, methods: u32) -> u32
        requires { from < methods }
        ensures { result < methods }
    {
        for m in from..methods {
            if is_so(self.quick.as_slice(), m) {
                return m;
            }
        }
        from
    }

    fn is_due(&self, m: u32) -> bool {
        is_so(self.due.as_slice(), m)
    }
}

/// Which methods are looked for: quick ones or others, and only those that are due or all.
#[derive(Clone, Copy)]
struct Kind {
    quick: bool,
    due: bool,
}

// Whether a method that the seat has not noted to be settled is of the kind.
fn is_wanted<N: Named>(seat: &Seat<N>, turns: &Turns, kind: Kind, m: u32) -> bool
    requires { m < N.methods }
    ensures { result ≡ true → IsBehind seat.now.view m }
{
    seat.is_behind(m)
        && is_so(turns.quick.as_slice(), m) == kind.quick
        && (turns.is_due(m) || !kind.due)
}

fn first_wanted<N: Named>(
    seat: &Seat<N>,
    turns: &Turns,
    kind: Kind,
    from: u32,
    until: u32,
) -> Option<u32>
    requires { until ≤ N.methods }
    ensures { IfSome result (λ m. (m < until) × IsBehind seat.now.view m) }
{
    for m in from..until {
        if is_wanted(seat, turns, kind, m) {
            return Some(m);
        }
    }
    None
}

// The next of the kind, going round.
fn next_wanted<N: Named>(seat: &Seat<N>, turns: &Turns, kind: Kind, methods: u32) -> Option<u32>
    requires methods { methods ≡ N.methods }
    ensures { IfSome result (λ n. (n < N.methods) × IsBehind seat.now.view n) }
{
    let place = if kind.quick {
        turns.quick_place
    } else {
        turns.other_place
    };
    let from = place.saturating_add(1).min(methods);
    match first_wanted(seat, turns, kind, from, methods) {
        Some(next) => Some(next),
        None => first_wanted(seat, turns, kind, 0, from),
    }
}

const KINDS: [Kind; 3] = [
    Kind {
        quick: true,
        due: true,
    },
    Kind {
        quick: false,
        due: true,
    },
    Kind {
        quick: false,
        due: false,
    },
];

/// The method that is run next, where `next` is behind: the next quick one that is due, else the next other
/// that is due, else the next other, else `next`.
pub(crate) fn choose<N: Named>(seat: &Seat<N>, turns: &Turns, methods: u32, next: u32) -> u32
    requires methods { methods ≡ N.methods }
    requires next { (next < N.methods) × IsBehind seat.now.view next }
    ensures { (result < N.methods) × IsBehind seat.now.view result }
{
    for kind in KINDS {
        if let Some(wanted) = next_wanted(seat, turns, kind, methods) {
            return wanted;
        }
    }
    next
}
