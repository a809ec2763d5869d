ghost use Rattle.std.specs.Prelude.{◌≡◌, ℕ, ℤ, Bool, true, false, List};
ghost use Rattle.plank_base.specs.Keys.{is_ordinary};
ghost use Rattle.plank_base.specs.declared.keys.Key.{Key};
ghost use Rattle.plank_prog.specs.declared.conditions.Condition.{Condition};
ghost use Rattle.plank_prog.specs.Conditions.{View, value, SameAnswers, IsTotalPreorder};
ghost use Rattle.plank_prog.specs.declared.headers.Header.{Header};
ghost use Rattle.plank_prog.specs.declared.scopes.Scope.{Scope};
ghost use Rattle.plank_prog.specs.Headers.{is_lawful_header};
ghost use Rattle.plank_prog.specs.Scopes.{condition_fits, AgreeWithin};
ghost use Rattle.plank_prog.specs.Views.{view_of, value_at, is_frozen};
ghost use Rattle.std.specs.Option.{option_map_or};

/// Laws of the values of conditions: they depend on a view's answers alone, and on those alone that a
/// scope allows; whether a node is frozen does not depend on a walked key; the order of the keys of a
/// view is total, and at the least and the greatest key no condition tells ordinary keys apart. It does
/// nothing.
pub fn condition_laws()
    ensures answers { (v w : View) (c : Condition) → SameAnswers v w → value v c ≡ value w c }
    ensures scope { (s : Scope) (v w : View) (c : Condition) →
        condition_fits s c ≡ true → AgreeWithin s v w → value v c ≡ value w c }
    ensures frozen { (h : Header) (key : Key) (flags : ℕ) (j : ℤ) → is_lawful_header h ≡ true →
        is_frozen h key flags ≡ option_map_or (λ c. value_at c key flags j) h.freeze false }
    ensures total { (key walked : Key) (flags : ℕ) (nulls : List Bool) (visited : Bool) →
        IsTotalPreorder (view_of key flags nulls walked visited).at_most }
    ensures ends { (key : Key) (flags : ℕ) (nulls : List Bool) (i j : ℤ) (visited : Bool) (c : Condition) →
        is_ordinary key ≡ false →
        value (view_of key flags nulls (Key.Num i) visited) c ≡ value (view_of key flags nulls (Key.Num j) visited) c }
{}
