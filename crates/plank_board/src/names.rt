ghost use Rattle.std.specs.Prelude.{◌≡◌, ℕ, Bool, true};
ghost use Rattle.plank_bits.specs.Forced.{IsMonotone};
ghost use Rattle.plank_board.specs.Stills.{IsClosing};

use std::marker::{Brand, Send, Sync};

/// Names one forcing, for contracts: how many methods and words it has, what each method forces, and where it
/// is still.
///
/// It has no calls and no bytes. Who shares a board picks the name, by a call at std's `Brand`.
pub trait Named: Send + Sync {
    /// How many methods there are.
    ghost methods: { ℕ };

    /// How many words of 64 marks there are.
    ghost words: { ℕ };

    /// That a method forces a mark, where these marks are set.
    ghost forces: { ℕ → (ℕ → Bool) → ℕ → Type 0 };

    /// That a method asks nothing more at these marks.
    ghost still: { ℕ → (ℕ → Bool) → Type 0 };

    /// More marks force more.
    ghost monotone: { IsMonotone forces methods };

    /// What is still forces no other mark.
    ghost closing: { IsClosing forces still methods };
}

impl Named for Brand {
    ghost methods = { 0 };

    ghost words = { 0 };

    ghost forces = { λ _ _ _. ⊥ };

    ghost still = { λ _ _. ⊥ };

    ghost monotone = { λ m k a b h w f. f };

    ghost closing = { λ m k a h s f. absurd f };
}
