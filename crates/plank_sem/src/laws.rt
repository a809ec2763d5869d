//! Laws of runs. Each function is empty, or only cites laws: what it ensures is the law.
ghost use Rattle.std.specs.Prelude.{◌≡◌, ◌↔◌, ℕ, ℤ, ◌<◌, ◌≤◌, true, false, List, ◌∷◌, length, Option, Some, map, slice_get};
ghost use Rattle.std.specs.FinMap.{get};
ghost use Rattle.plank_prog.specs.declared.headers.Header.{Header};
ghost use Rattle.plank_prog.specs.declared.methods.Method.{Method};
ghost use Rattle.plank_prog.specs.Headers.{is_lawful_header};
ghost use Rattle.plank_prog.specs.Methods.{are_lawful_methods};
ghost use Rattle.plank_hist.specs.declared.events.Event.{Event};
ghost use Rattle.plank_sem.specs.declared.calls.Call.{Call};
ghost use Rattle.plank_sem.specs.declared.steps.Choice.{Choice};
ghost use Rattle.plank_sem.specs.Worlds.{WorldState};
ghost use Rattle.plank_heap.specs.Heaps.{IsClosed};
ghost use Rattle.plank_sem.specs.Steps.{next, stepped};
ghost use Rattle.plank_sem.specs.Fits.{Fits};
ghost use Rattle.plank_sem.specs.Runs.{Run, history, moment_of, AllRunsLinearizable, NoNullReads, ReturnsAlone, AnswersFalseWithoutInsert};
ghost use Rattle.plank_sem.specs.CallMoments.{last_begun, call_moments};
ghost use Rattle.plank_sem.specs.Kept.{differs, GhostWorld, ghost_after, GhostRun, IsSpent, TurnsOwnKeys};
ghost use Rattle.plank_sem.specs.Facts.{HasSizes, AreNumbered, IsSound, Stays, comes_to_writes, IsWriting, IsIdle};

use plank_hist::laws::empty_set_law;

/// Runs with what is kept beside them are the same runs.
///
/// What is kept is read by no step, so a law over the one is a law over the other.
pub fn ghost_runs_law()
    ensures of_run { (h : Header) (methods : List Method) (choices : List Choice) (told : List (Option Event)) (worlds : List WorldState)
        → Run h methods choices told worlds
        → (ghosts : List GhostWorld) × GhostRun h methods choices told ghosts × (map (λ g. g.world) ghosts ≡ worlds) }
    ensures to_run { (h : Header) (methods : List Method) (choices : List Choice) (told : List (Option Event)) (ghosts : List GhostWorld)
        → GhostRun h methods choices told ghosts → Run h methods choices told (map (λ g. g.world) ghosts) }
{}

/// What holds of every world of every run of a lawful program, by the steps alone, and what stays
/// from each world to the later ones.
pub fn world_facts_law()
    ensures fits { (h : Header) (methods : List Method) (choices : List Choice) (told : List (Option Event)) (ghosts : List GhostWorld)
        → is_lawful_header h ≡ true → are_lawful_methods h methods ≡ true → GhostRun h methods choices told ghosts
        → (i : ℕ) (g : GhostWorld) → slice_get ghosts i ≡ Some g → Fits methods g.world }
    ensures sound { (h : Header) (methods : List Method) (choices : List Choice) (told : List (Option Event)) (ghosts : List GhostWorld)
        → is_lawful_header h ≡ true → are_lawful_methods h methods ≡ true → GhostRun h methods choices told ghosts
        → (i : ℕ) (g : GhostWorld) → slice_get ghosts i ≡ Some g → IsSound h g }
    ensures sizes { (h : Header) (methods : List Method) (choices : List Choice) (told : List (Option Event)) (ghosts : List GhostWorld)
        → GhostRun h methods choices told ghosts
        → (i : ℕ) (g : GhostWorld) → slice_get ghosts i ≡ Some g → HasSizes g.world }
    ensures numbered { (h : Header) (methods : List Method) (choices : List Choice) (told : List (Option Event)) (ghosts : List GhostWorld)
        → is_lawful_header h ≡ true → are_lawful_methods h methods ≡ true → GhostRun h methods choices told ghosts
        → (i : ℕ) (g : GhostWorld) → slice_get ghosts i ≡ Some g → AreNumbered h g }
    ensures stays { (h : Header) (methods : List Method) (choices : List Choice) (told : List (Option Event)) (ghosts : List GhostWorld)
        → is_lawful_header h ≡ true → are_lawful_methods h methods ≡ true → GhostRun h methods choices told ghosts
        → (i k : ℕ) (later earlier : GhostWorld) → i ≤ k → slice_get ghosts i ≡ Some later → slice_get ghosts k ≡ Some earlier → Stays earlier later }
{}

/// A step that comes to no block that writes changes nothing that other threads can see: the nodes that
/// were there are as they were, with their owners, and each walk visits what it visited. So a key enters
/// or leaves the set only where a block writes whose tests are true.
pub fn idle_step_law()
    ensures idle { (h : Header) (methods : List Method) (before : GhostWorld) (choice : Choice) (event : Option Event) (after : WorldState)
        → IsClosed before.world.heap → comes_to_writes methods before.world choice ≡ false → next methods before.world choice ≡ stepped event after
        → IsIdle h before (ghost_after h methods before choice after) }
    ensures turns { (h : Header) (methods : List Method) (before : GhostWorld) (choice : Choice) (event : Option Event) (after : WorldState)
        → IsClosed before.world.heap → next methods before.world choice ≡ stepped event after
        → (key : ℤ) → differs h before.world.heap after.heap key ≡ true → IsWriting methods before.world choice.thread }
{}

/// The events of a run happen one after another: each within the run, and later ones at later moments.
pub fn moments_law()
    ensures within { (told : List (Option Event)) (place : ℕ) → moment_of told place ≤ length told }
    ensures rising { (told : List (Option Event)) (i j : ℕ) → i < j → j < length (history told) → moment_of told i < moment_of told j }
{}

/// The moments of a pending call, of an upkeep too: it began in the run, the newest world is one of
/// them, and each is a world of the run that is not older than the call.
pub fn call_moments_law()
    ensures begun { (h : Header) (methods : List Method) (choices : List Choice) (told : List (Option Event)) (g : GhostWorld) (ghosts : List GhostWorld)
        → GhostRun h methods choices told (g ∷ ghosts) → (thread : ℕ) (call : Call) → get g.world.calls thread ≡ Some call
        → (age : ℕ) × (last_begun thread choices ≡ Some age) × (age < length choices) }
    ensures newest { (h : Header) (methods : List Method) (choices : List Choice) (told : List (Option Event)) (g : GhostWorld) (ghosts : List GhostWorld)
        → GhostRun h methods choices told (g ∷ ghosts) → (thread : ℕ) (call : Call) → get g.world.calls thread ≡ Some call
        → slice_get (call_moments thread choices (g ∷ ghosts)) 0 ≡ Some g }
    ensures worlds { (thread : ℕ) (choices : List Choice) (ghosts : List GhostWorld) (n age : ℕ) (g : GhostWorld)
        → last_begun thread choices ≡ Some age → slice_get (call_moments thread choices ghosts) n ≡ Some g
        → (n ≤ age) × (slice_get ghosts n ≡ Some g) }
{}

/// Where steps turn the keys of their own calls alone, what is kept says of each pending call whether it
/// is spent.
pub fn spent_law()
    ensures { (h : Header) (methods : List Method) (choices : List Choice) (told : List (Option Event)) (g : GhostWorld) (ghosts : List GhostWorld)
        → GhostRun h methods choices told (g ∷ ghosts) → TurnsOwnKeys h choices (g ∷ ghosts)
        → (thread : ℕ) (call : Call) → get g.world.calls thread ≡ Some call
        → (g.kept.has_changed thread ≡ true) ↔ IsSpent h thread choices (map (λ k. k.world) (g ∷ ghosts)) }
{}

/// Where each location returns, no run comes to a null read.
pub fn returns_alone_law()
    ensures { (h : Header) (methods : List Method) → ReturnsAlone methods → NoNullReads h methods }
{}

/// Where no method is an insert and each location but those of upkeep returns false, every run of any
/// number of threads has a history that is linearizable to a set, which stays empty.
pub fn answers_false_without_insert_law()
    ensures { (h : Header) (methods : List Method) → AnswersFalseWithoutInsert methods → AllRunsLinearizable h methods }
{
    empty_set_law();
}
