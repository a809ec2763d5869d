ghost use Rattle.std.specs.Prelude.{◌≡◌, ℕ, Bool, List};
ghost use Rattle.plank_bits.specs.Forced.{IsLeast, IsMonotone};
ghost use Rattle.plank_board.specs.Stills.{IsClosing, AreStill};
ghost use Rattle.plank_prog.specs.declared.headers.Header.{Header};
ghost use Rattle.plank_prog.specs.declared.methods.Method.{Method};
ghost use Rattle.plank_fact.specs.Forced.{outline, AreLeastMarks, IsValid};
ghost use Rattle.plank_unit.specs.Units.{unit_count, UnitForces, UnitIsStill};

/// Laws of units: more marks force more, and what is still forces none; the least marks of the units are those
/// of the methods; and where every unit is still, each claim is justified. It does nothing.
pub fn units_law()
    ensures monotone { (h : Header) (methods : List Method) (n : ℕ) → IsMonotone (UnitForces h methods) n }
    ensures closing { (h : Header) (methods : List Method) (n : ℕ) →
        IsClosing (UnitForces h methods) (UnitIsStill h methods) n }
    ensures least { (h : Header) (methods : List Method) (marks : ℕ → Bool) →
        IsLeast (UnitForces h methods) (unit_count methods) marks → AreLeastMarks h methods marks }
    ensures valid { (h : Header) (methods : List Method) (marks : ℕ → Bool) →
        AreStill (UnitIsStill h methods) (unit_count methods) marks → IsValid (outline h methods marks) }
{}
