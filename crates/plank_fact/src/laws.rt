ghost use Rattle.std.specs.Prelude.{◌≡◌, ◌⊎◌, ◌≤◌, ℕ, ◌<◌, ◌*◌, Bool, true, false, List, length, sum_by, slice_get, Some};
ghost use Rattle.plank_base.specs.declared.limits.TheConstants.{VARIABLES_LIMIT, FLAGS_LIMIT, POINTERS_LIMIT, MARK_WORDS_PER_LOCATION};
ghost use Rattle.plank_bits.specs.Forced.{IsMonotone, IsBounded, IsClosed};
ghost use Rattle.plank_prog.specs.declared.headers.Header.{Header};
ghost use Rattle.plank_prog.specs.declared.methods.Method.{Method};
ghost use Rattle.plank_base.specs.declared.obligations.Kind.{Kind};
ghost use Rattle.plank_prog.specs.Headers.{is_lawful_header};
ghost use Rattle.plank_prog.specs.Methods.{location_count, are_lawful_methods};
ghost use Rattle.plank_pic.specs.declared.literals.Exit.{Exit};
ghost use Rattle.plank_pic.specs.declared.parts.KeyName.{KeyName};
ghost use Rattle.plank_pic.specs.Pictures.{Picture};
ghost use Rattle.plank_pic.specs.Steps.{Change};
ghost use Rattle.plank_pic.specs.Blocks.{change_of};
ghost use Rattle.plank_pic.specs.Keeps.{IsKeptWrite};
ghost use Rattle.plank_fact.specs.declared.facts.Fact.{Fact};
ghost use Rattle.plank_fact.specs.Tables.{facts_of, IsNumbered, IsFactOf};
ghost use Rattle.plank_fact.specs.Outlines.{Outline, Point, location_number, IsClaimed, IsMarked};
ghost use Rattle.plank_fact.specs.OwnSteps.{own_frame, turn_at, IsOwnPicture, IsWriteStep, HoldsCalls};
ghost use Rattle.plank_fact.specs.After.{IsAfter, IsAtEntry};
ghost use Rattle.plank_fact.specs.Forced.{outline, Forces, AreLeastMarks, IsValid, IsDecided};
ghost use Rattle.plank_fact.specs.Writes.{PublishFails};
ghost use Rattle.plank_fact.specs.Obligations.{FailsThere, AllHold};

/// Laws of the table of facts: a fact has one number, and the facts of a method have room among the marks
/// of a location. It does nothing.
pub fn table_laws()
    ensures numbers { (h : Header) (m : Method) (i j : ℕ) (f : Fact) → IsNumbered h m i f →
        IsNumbered h m j f → i ≡ j }
    ensures room { (h : Header) (m : Method) → length m.variables ≤ VARIABLES_LIMIT →
        length h.flags ≤ FLAGS_LIMIT → length h.pointers ≤ POINTERS_LIMIT →
        length (facts_of h m) ≤ 64 * MARK_WORDS_PER_LOCATION }
{}

/// Each fact of a method is claimed at a location or marked there, and never both. It does nothing.
pub fn claims_laws()
    ensures either { (outline : Outline) (x : Point outline.methods) (f : Fact) →
        IsFactOf outline.header x.method f → IsClaimed outline x f ⊎ IsMarked outline x f }
    ensures not_both { (outline : Outline) (x : Point outline.methods) (f : Fact) →
        IsClaimed outline x f → IsMarked outline x f → ⊥ }
{}

/// Laws of forced marks: the more marks are set, the more are forced; only marks of the program's locations
/// are; where each claim is justified, none is forced that is not set; and the other way round, where it is
/// decided what is known at entry and after steps. It does nothing.
pub fn forcing_laws()
    ensures monotone { (h : Header) (methods : List Method) (n : ℕ) → IsMonotone (Forces h methods) n }
    ensures bounded { (h : Header) (methods : List Method) (n : ℕ) → length h.flags ≤ FLAGS_LIMIT →
        length h.pointers ≤ POINTERS_LIMIT →
        ((m : ℕ) (method : Method) → slice_get methods m ≡ Some method →
        length method.variables ≤ VARIABLES_LIMIT) →
        IsBounded (Forces h methods) n (sum_by location_count methods * (64 * MARK_WORDS_PER_LOCATION)) }
    ensures closed { (h : Header) (methods : List Method) (marks : ℕ → Bool) (n : ℕ) →
        IsValid (outline h methods marks) → IsClosed (Forces h methods) n marks }
    ensures valid { (h : Header) (methods : List Method) (marks : ℕ → Bool) →
        IsClosed (Forces h methods) (length methods) marks →
        ((m : Method) (f : Fact) → IsFactOf h m f → IsDecided (IsAtEntry (outline h methods marks) m f)) →
        ((x : Point methods) (e : Exit) (f : Fact) → IsFactOf h x.method f →
        IsDecided (IsAfter (outline h methods marks) x e f)) → IsValid (outline h methods marks) }
{}

/// At the least marks there is no own picture at a location that no call comes to. It does nothing.
pub fn unreached_law()
    ensures { (h : Header) (methods : List Method) (marks : ℕ → Bool) (inside : ℕ → Bool) →
        is_lawful_header h ≡ true → are_lawful_methods h methods ≡ true → AreLeastMarks h methods marks →
        HoldsCalls methods inside → (x : Point methods) → inside (location_number methods x.m x.l) ≡ false →
        (p : Picture) → IsOwnPicture (outline h methods marks) x p → ⊥ }
{}

/// Where every obligation of a program holds, no obligation of a location fails there. It does nothing.
pub fn obligations_law()
    ensures { (outline : Outline) → AllHold outline → (kind : Kind) (x : Point outline.methods) →
        FailsThere kind outline x → ⊥ }
{}

/// The obligation publish cannot fail: a node that another node points to is shared already. It does
/// nothing.
pub fn publish_law()
    ensures { (outline : Outline) (x : Point outline.methods) → PublishFails outline x → ⊥ }
{}

/// Where every obligation of a program holds, each write step of a location keeps what pictures ask of a
/// write, for the generic key: the keeps of nodes, named and inside chains, the order of the written
/// node's pointers, and the walks of keys. It does nothing.
pub fn kept_writes_law()
    ensures { (outline : Outline) → AllHold outline → (x : Point outline.methods) (c : Change) →
        change_of (turn_at outline x Exit.Yes) ≡ Some c → (before after : Picture) →
        IsWriteStep outline x before after → IsKeptWrite (own_frame outline x) c before after KeyName.Any }
{}
