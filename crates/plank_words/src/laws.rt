//! Words that a command takes are never refused.
ghost use Rattle.std.specs.Prelude.{◌≡◌, ℕ, ◌∷◌, ◌++◌, List, [], Some, codes};
ghost use Rattle.plank_words.specs.declared.commands.Command.{Command};
ghost use Rattle.plank_words.specs.declared.commands.Asked.TheVariants.{Serve, Large};
ghost use Rattle.plank_words.specs.Numbers.{number_between};
ghost use Rattle.plank_words.specs.Words.{name_of, TakesWorkers, asked_by};

/// Each command alone is taken, and so is one that judges with `--workers` and a number in its range, in two
/// words or in one; and `large` with a number in its range.
pub fn taken_words_law()
    ensures alone { (command : Command) → asked_by (name_of command ∷ []) ≡ Some (Serve command 1) }
    ensures apart { (command : Command) (text : List ℕ) (workers : ℕ) → TakesWorkers command → number_between 1 64 text ≡ Some workers →
        asked_by (name_of command ∷ codes "--workers" ∷ text ∷ []) ≡ Some (Serve command workers) }
    ensures joined { (command : Command) (text : List ℕ) (workers : ℕ) → TakesWorkers command → number_between 1 64 text ≡ Some workers →
        asked_by (name_of command ∷ (codes "--workers=" ++ text) ∷ []) ≡ Some (Serve command workers) }
    ensures large { (text : List ℕ) (methods : ℕ) → number_between 2 16 text ≡ Some methods →
        asked_by (codes "large" ∷ text ∷ []) ≡ Some (Large methods) }
{}
