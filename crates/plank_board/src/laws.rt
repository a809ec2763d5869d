//! The board apart from threads, as laws over every list of events by any number of seats. Each function only
//! cites laws: what it ensures is the law.
ghost use Rattle.std.specs.Prelude.{◌^◌, ◌<◌, ℕ, List};
ghost use Rattle.plank_bits.specs.Forced.{IsLeast};
ghost use Rattle.plank_board.specs.declared.views.View.{View};
ghost use Rattle.plank_board.specs.Words.{marks};
ghost use Rattle.plank_board.specs.Stills.{AreStill};
ghost use Rattle.plank_board.specs.Events.{Follows};
ghost use Rattle.plank_board.specs.Rule.{IsKept, HaveLeft};

use crate::names::Named;

/// The rule holds after any events. So no mark is ever set that is not in the least closed set.
pub fn rule_law<N: Named>()
    ensures { (seats : ℕ) (words : List ℕ) (views : List View) → N.words < 2 ^ 32 →
        Follows N.methods N.words N.forces N.still seats words views →
        IsKept N.methods N.words N.forces N.still seats words views }
{}

/// Where some seat has left, none is in growth, and none raised the epoch later than it left, the marks are
/// the least closed set, and every method is still there.
pub fn least_law<N: Named>()
    ensures least { (seats : ℕ) (words : List ℕ) (views : List View) → N.words < 2 ^ 32 →
        Follows N.methods N.words N.forces N.still seats words views → HaveLeft views →
        IsLeast N.forces N.methods (marks N.methods words) }
    ensures still { (seats : ℕ) (words : List ℕ) (views : List View) → N.words < 2 ^ 32 →
        Follows N.methods N.words N.forces N.still seats words views → HaveLeft views →
        AreStill N.still N.methods (marks N.methods words) }
{}
