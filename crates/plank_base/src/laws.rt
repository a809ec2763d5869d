ghost use Rattle.std.specs.Prelude.{◌≡◌, ◌≢◌, ◌⊎◌, ◌↔◌, ℕ, ℤ, ◌<◌, suc, true, Option, Some, None, IsTrue};
ghost use Rattle.plank_base.specs.declared.keys.Key.{Key};
ghost use Rattle.plank_base.specs.Keys.{is_at_most};
ghost use Rattle.plank_base.specs.Paths.{Path, EndsAt, NeverEnds, IsOnCycle, off, Visits, MeetsBeyond, Extends, AgreeOff, FollowsOrStops, StopsBefore, IsUndefinedFrom, StaysBelow, after, meets_within, end_within};

/// Laws of the paths of a partial function: of walks of keys and of chains of frozen nodes. It does nothing.
pub fn path_laws()
    ensures one_line { (f : ℕ → Option ℕ) (a b c : ℕ) →
        Path f a b → Path f a c → Path f b c ⊎ Path f c b }
    ensures one_end { (f : ℕ → Option ℕ) (a b c : ℕ) → EndsAt f a b → EndsAt f a c → b ≡ c }
    ensures wider { (f g : ℕ → Option ℕ) (a b : ℕ) → Extends f g → Path f a b → Path g a b }

    // A point of the walk: its first visit, its last visit, and what is met before and beyond.
    ensures first_visit { (f : ℕ → Option ℕ) (x a b : ℕ) →
        Path f a b ↔ (Path (off f x) a b ⊎ (Path (off f x) a x × Path f x b)) }
    ensures last_visit { (f : ℕ → Option ℕ) (x b : ℕ) → Path f x b ↔ ((b ≡ x) ⊎ MeetsBeyond f x b) }
    ensures visits { (f : ℕ → Option ℕ) (x a b : ℕ) → Path f a b ↔ Visits f x a b }
    ensures agree { (f g : ℕ → Option ℕ) (x a b : ℕ) →
        AgreeOff f g x → Path (off f x) a b → Path (off g x) a b }

    ensures cycle { (f : ℕ → Option ℕ) (x : ℕ) → IsOnCycle f x → NeverEnds f x }
    ensures chain { (c e : ℕ → Option ℕ) (p q : ℕ) →
        FollowsOrStops c e → Path c p q → Path e p q ⊎ StopsBefore c e p q }
{}

/// Laws of paths in as many moves as there are numbers below a bound. It does nothing.
pub fn bounded_path_laws()
    // The pigeonhole: a walk of more moves than there are numbers never ends.
    ensures endless { (f : ℕ → Option ℕ) (n a c : ℕ) →
        StaysBelow f n → a < n → after f n a ≡ Some c → NeverEnds f a }
    ensures endless_past { (f : ℕ → Option ℕ) (n a c : ℕ) →
        IsUndefinedFrom f n → after f (suc n) a ≡ Some c → NeverEnds f a }

    ensures met { (f : ℕ → Option ℕ) (n a b : ℕ) →
        IsUndefinedFrom f n → (IsTrue (meets_within f n a b) ↔ Path f a b) }
    ensures ends { (f : ℕ → Option ℕ) (n a b : ℕ) →
        IsUndefinedFrom f n → ((end_within f n a ≡ Some b) ↔ EndsAt f a b) }
    ensures no_end { (f : ℕ → Option ℕ) (n a : ℕ) →
        IsUndefinedFrom f n → ((end_within f n a ≡ None) ↔ NeverEnds f a) }
{}

/// Laws of the order of keys: it is total and transitive, it lies between its ends, and numbers that lie
/// at or below each other are one. It does nothing.
pub fn key_laws()
    ensures total { (a b : Key) → (is_at_most a b ≡ true) ⊎ (is_at_most b a ≡ true) }
    ensures transitive { (a b c : Key) → is_at_most a b ≡ true → is_at_most b c ≡ true → is_at_most a c ≡ true }
    ensures ends { (a : Key) → (is_at_most Key.Min a ≡ true) × (is_at_most a Key.Max ≡ true) }
    ensures numbers { (x y : ℤ) → is_at_most (Key.Num x) (Key.Num y) ≡ true → is_at_most (Key.Num y) (Key.Num x) ≡ true → x ≡ y }
{}
