//! Moments of calls, by example.
ghost use Rattle.std.specs.Prelude.{◌≡◌, ℕ, [], ◌∷◌};
ghost use Rattle.plank_sem.specs.CallMoments.{call_moments};
ghost use Rattle.plank_model_tests.specs.Schedules.{two_calls};

/// The moments of two calls, of which the second, be it an upkeep, begins in the middle of the first: each
/// has the worlds from the one after its invocation on. It does nothing.
pub fn moments_of_two_calls()
    ensures first { (a b c d e : ℕ) → call_moments 1 two_calls (e ∷ d ∷ c ∷ b ∷ a ∷ []) ≡ e ∷ d ∷ c ∷ b ∷ [] }
    ensures second { (a b c d e : ℕ) → call_moments 2 two_calls (e ∷ d ∷ c ∷ b ∷ a ∷ []) ≡ e ∷ d ∷ c ∷ [] }
{}
