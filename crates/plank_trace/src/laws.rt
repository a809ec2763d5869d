//! Laws of traces. Each function is empty: what it ensures is the law.
ghost use Rattle.std.specs.Prelude.{◌≡◌, ◌⊎◌, ◌↔◌, ℕ, ℤ, suc, ◌∷◌, true, List, Option};
ghost use Rattle.plank_prog.specs.declared.headers.Header.{Header};
ghost use Rattle.plank_prog.specs.declared.methods.Method.{Method};
ghost use Rattle.plank_heap.specs.declared.heaps.Heap.{Heap};
ghost use Rattle.plank_heap.specs.Heaps.{IsClosed};
ghost use Rattle.plank_heap.specs.Walks.{WalkVisits};
ghost use Rattle.plank_hist.specs.declared.events.Event.{Event};
ghost use Rattle.plank_sem.specs.declared.steps.Choice.{Choice};
ghost use Rattle.plank_sem.specs.Worlds.{WorldState};
ghost use Rattle.plank_sem.specs.Runs.{Run};
ghost use Rattle.plank_trace.specs.declared.lines.Line.{Line};
ghost use Rattle.plank_trace.specs.Paths.{is_on, path_of};
ghost use Rattle.plank_trace.specs.Schedules.{IsSchedule, IsBadSchedule};
ghost use Rattle.plank_trace.specs.Traces.{Plays, IsTrace, IsBadStep, choices_of};

/// What is played is a run, by the choices of the lines.
pub fn plays_law()
    ensures { (h : Header) (methods : List Method) (lines : List Line) (n : ℕ) (w : WorldState) (bytes : List ℕ) →
        Plays h methods lines n w bytes → (told : List (Option Event)) × (worlds : List WorldState) ×
        Run h methods (choices_of methods lines n) told (w ∷ worlds) }
{}

/// A schedule has one trace, or one step is the first that cannot be made, and not both.
pub fn one_trace_law()
    ensures traces { (h : Header) (methods : List Method) (lines : List Line) (a b : List ℕ) →
        IsTrace h methods lines a → IsTrace h methods lines b → a ≡ b }
    ensures steps { (h : Header) (methods : List Method) (lines : List Line) (i j : ℕ) →
        IsBadStep h methods lines i → IsBadStep h methods lines j → i ≡ j }
    ensures apart { (h : Header) (methods : List Method) (lines : List Line) (a : List ℕ) (i : ℕ) →
        IsTrace h methods lines a → IsBadStep h methods lines i → ⊥ }
    ensures some { (h : Header) (methods : List Method) (lines : List Line) →
        ((bytes : List ℕ) × IsTrace h methods lines bytes) ⊎ ((i : ℕ) × IsBadStep h methods lines i) }
{}

/// The nodes of a path are those that the walk visits.
pub fn path_law()
    ensures { (h : Header) (heap : Heap) (j : ℤ) (x : ℕ) → IsClosed heap →
        ((is_on (path_of h heap j) x ≡ true) ↔ WalkVisits h heap j x) }
{}

/// Bytes are a schedule and a text in one way, or one line is the first that is none, and not both.
pub fn one_schedule_law()
    ensures readings { (bytes : List ℕ) (a b : List Line) (x y : List ℕ) →
        IsSchedule bytes a x → IsSchedule bytes b y → (a ≡ b) × (x ≡ y) }
    ensures lines { (bytes : List ℕ) (i j : ℕ) → IsBadSchedule bytes i → IsBadSchedule bytes j → i ≡ j }
    ensures apart { (bytes : List ℕ) (a : List Line) (x : List ℕ) (i : ℕ) →
        IsSchedule bytes a x → IsBadSchedule bytes i → ⊥ }
{}
