//! Laws of histories, over every history. Each function is empty: what it ensures is the law.
ghost use Rattle.std.specs.Prelude.{ℕ, Bool, ℤ, List};
ghost use Rattle.plank_base.specs.declared.operations.Op.{Op};
ghost use Rattle.plank_hist.specs.declared.events.Event.{Event};
ghost use Rattle.plank_hist.specs.Sets.{set_of_keys};
ghost use Rattle.plank_hist.specs.Histories.{history_of};
ghost use Rattle.plank_hist.specs.Linearizability.{IsLinearizableSet};
ghost use Rattle.plank_hist.specs.Traces.{Trace, Explains};
ghost use Rattle.plank_hist.specs.EmptySet.{AnswersFalse, AnswersNoInsert};

/// The trace law: a history is linearizable to a set if a trace explains it.
///
/// A trace gives each call one moment between its ends at which it takes effect, the usual way to show
/// linearizability (Herlihy and Wing 1990); calls that only look may share a moment, as those that are
/// explained in hindsight do (O'Hearn et al. 2010).
pub fn trace_law()
    ensures { (events : List Event) (trace : Trace (ℤ → Bool) (Op × ℤ) Bool)
        → Explains set_of_keys (history_of events) trace → IsLinearizableSet events }
{}

/// The law of the empty set: a history in which no insert is answered and every answer is false is
/// linearizable to a set, since a set that stays empty explains it.
pub fn empty_set_law()
    ensures { (events : List Event) → AnswersNoInsert events → AnswersFalse events
        → IsLinearizableSet events }
{}
