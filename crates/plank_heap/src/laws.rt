ghost use Rattle.std.specs.Prelude.{◌≡◌, ◌↔◌, ◌<◌, ℕ, ℤ, Bool, true, Some, None, IsTrue, slice_get};
ghost use Rattle.plank_base.specs.declared.limits.TheConstants.{FLAGS_LIMIT};
ghost use Rattle.plank_prog.specs.declared.conditions.Condition.{Condition};
ghost use Rattle.plank_prog.specs.declared.headers.Header.{Header};
ghost use Rattle.plank_prog.specs.Conditions.{value};
ghost use Rattle.plank_prog.specs.Headers.{is_lawful_header};
ghost use Rattle.plank_prog.specs.Views.{is_bit_set};
ghost use Rattle.plank_heap.specs.declared.heaps.Heap.{Heap};
ghost use Rattle.plank_heap.specs.declared.nodes.Node.{Node};
ghost use Rattle.plank_heap.specs.Changes.{with_bit};
ghost use Rattle.plank_heap.specs.Heaps.{IsClosed, start_heap, view_of_node};
ghost use Rattle.plank_heap.specs.Walks.{WalkVisits, WalkEndsAt, WalkNeverEnds, Contains, walk_visits, walk_end, contains};

/// Laws of walks: the tests of visits, of ends and of the set are what they test. It does nothing.
pub fn walk_laws()
    ensures visits { (h : Header) (heap : Heap) (j : ℤ) (x : ℕ) →
        IsTrue (walk_visits h heap j x) ↔ WalkVisits h heap j x }
    ensures ends { (h : Header) (heap : Heap) (j : ℤ) (y : ℕ) →
        (walk_end h heap j ≡ Some y) ↔ WalkEndsAt h heap j y }
    ensures never { (h : Header) (heap : Heap) (j : ℤ) →
        (walk_end h heap j ≡ None) ↔ WalkNeverEnds h heap j }
    ensures set { (h : Header) (heap : Heap) (j : ℤ) → IsTrue (contains h heap j) ↔ Contains h heap j }
{}

/// Laws of the start heap: it is closed, and since its keys are the least and the greatest key, each
/// condition, each walk's end and the set are the same for all ordinary keys. It does nothing.
pub fn start_laws()
    ensures closed { (h : Header) → is_lawful_header h ≡ true → IsClosed (start_heap h) }
    ensures condition { (h : Header) → is_lawful_header h ≡ true → (i j : ℤ) (x : ℕ) (node : Node)
        (visited : Bool) (c : Condition) → slice_get (start_heap h).nodes x ≡ Some node →
        value (view_of_node node i visited) c ≡ value (view_of_node node j visited) c }
    ensures end { (h : Header) → is_lawful_header h ≡ true → (i j : ℤ) →
        walk_end h (start_heap h) i ≡ walk_end h (start_heap h) j }
    ensures set { (h : Header) → is_lawful_header h ≡ true → (i j : ℤ) →
        contains h (start_heap h) i ≡ contains h (start_heap h) j }
{}

/// Laws of flags: a written flag has the value that was written, and the others keep theirs. It does
/// nothing.
pub fn flag_laws()
    ensures written { (flags f : ℕ) (to : Bool) → f < FLAGS_LIMIT →
        is_bit_set (with_bit flags f to) f ≡ to }
    ensures others { (flags f g : ℕ) (to : Bool) → f < FLAGS_LIMIT → g < FLAGS_LIMIT → (g ≡ f → ⊥) →
        is_bit_set (with_bit flags f to) g ≡ is_bit_set flags g }
{}
