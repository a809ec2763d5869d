/// What a fact speaks of besides its kind: the numbers of a first name, of a field and of a second
/// name, each 0 where the kind has none. Root is the name of number 0.
#[derive(Clone, Copy, PartialEq, Eq, Debug)]
pub struct Parts {
    pub first: u32,
    pub field: u32,
    pub second: u32,
}

/// How many names and fields a method has, how many of its names may be locked, and how many may
/// stand in chains.
#[derive(Clone, Copy, PartialEq, Eq, Debug)]
pub struct Sizes {
    pub names: u8,
    pub flags: u8,
    pub pointers: u8,
    pub lockable: u8,
    pub chained: u8,
}

/// Which second names a fact of a kind may have.
#[derive(Clone, Copy, PartialEq, Eq, Debug)]
pub enum Seconds {
    /// The kind has no second name.
    Absent,
    /// Each name.
    Every,
    /// Each other name than the first.
    Others,
    /// Each name after the first.
    Later,
}

/// How the facts of a kind are counted out: by the first name, then by the field, then by the second
/// name.
#[derive(Clone, Copy, PartialEq, Eq, Debug)]
pub struct Layout {
    /// First names; 1 where the kind has none.
    pub firsts: u8,
    /// Fields; 1 where the kind has none.
    pub fields: u8,
    pub seconds: Seconds,
}

impl Layout {
    ghost use Rattle.std.specs.Prelude.{◌≡◌, ◌+◌, ◌<◌, ◌≤◌, ◌^◌, ℕ, IfOk, IfErr, IfSome, IsNone};
    ghost use Rattle.plank_fact.specs.Places.{second_count, second_of, width, start, IsPlace};

    // How many second names there are beside a first.
    fn second_count(&self, first: u32) -> u32
        requires { first < self.now.firsts }
        ensures count { result ≡ second_count self.now first }
        ensures few { result < 256 }
    {
        let firsts = u32::from(self.firsts);
        match self.seconds {
            Seconds::Absent => 1,
            Seconds::Every => firsts,
            Seconds::Others => firsts - 1,
            Seconds::Later => firsts - 1 - first,
        }
    }

    // The second name of this rank beside a first.
    fn second_at(&self, first: u32, rank: u32) -> u32
        requires first { first < self.now.firsts }
        requires rank { rank < second_count self.now first }
        ensures { result ≡ second_of self.now.seconds first rank }
    {
        match self.seconds {
            Seconds::Absent => 0,
            Seconds::Every => rank,
            Seconds::Others => rank + u32::from(first <= rank),
            Seconds::Later => first + 1 + rank,
        }
    }

    // The rank of a second name beside a first, where it may stand there.
    fn rank(&self, first: u32, second: u32) -> Option<u32>
        requires { first < self.now.firsts }
        ensures found { IfSome result (λ rank. rank < second_count self.now first) }
        ensures second { IfSome result (λ rank. second ≡ second_of self.now.seconds first rank) }
        ensures none { IsNone result → (rank : ℕ) → rank < second_count self.now first →
            second ≡ second_of self.now.seconds first rank → ⊥ }
    {
        let firsts = u32::from(self.firsts);
        match self.seconds {
            Seconds::Absent if second == 0 => Some(0),
            Seconds::Every if second < firsts => Some(second),
            Seconds::Others if second < first => Some(second),
            Seconds::Others if first < second && second < firsts => Some(second - 1),
            Seconds::Later if first < second && second < firsts => Some(second - first - 1),
            _ => None,
        }
    }

    // How many facts have this first name.
    fn width(&self, first: u32) -> u32
        requires { first < self.now.firsts }
        ensures width { result ≡ width self.now first }
        ensures few { result ≤ 2 ^ 16 }
    {
        u32::from(self.fields) * self.second_count(first)
    }

    // How many facts have a first name before this one.
    fn start(&self, first: u32) -> u32
        requires { first ≤ self.now.firsts }
        ensures start { result ≡ start self.now first }
        ensures few { result ≤ 2 ^ 24 }
    {
        let mut count = 0;
        for before in 0..first {
            count += self.width(before);
        }
        count
    }

    // How many facts there are.
    pub(crate) fn len(&self) -> u32
        ensures length { result ≡ start self.now self.now.firsts }
        ensures few { result ≤ 2 ^ 24 }
    {
        self.start(u32::from(self.firsts))
    }

    // The parts of the fact that stands this far into those with a first name.
    fn parts_of_row(&self, first: u32, rest: u32) -> Parts
        requires first { first < self.now.firsts }
        requires rest { rest < width self.now first }
        ensures { (place : ℕ) → place ≡ start self.now first + rest → IsPlace self.now result place }
    {
        let count = self.second_count(first);
        Parts {
            first,
            field: rest / count,
            second: self.second_at(first, rest % count),
        }
    }

    // The parts of the fact at a place; past the last, how far past it is.
    pub(crate) fn parts_at(&self, place: u32) -> Result<Parts, u32>
        ensures found { IfOk result (λ parts. IsPlace self.now parts place) }
        ensures past { IfErr result (λ rest. place ≡ start self.now self.now.firsts + rest) }
    {
        let mut rest = place;
        for first in 0..u32::from(self.firsts) {
            let width = self.width(first);
            if rest < width {
                return Ok(self.parts_of_row(first, rest));
            }
            rest -= width;
        }
        Err(rest)
    }

    // The place of the fact with these parts; none where the kind has no such fact.
    pub(crate) fn place_of(&self, parts: &Parts) -> Option<u32>
        ensures found { IfSome result (λ place. IsPlace self.now parts.now place) }
        ensures few { IfSome result (λ place. place < 2 ^ 25) }
        ensures none { IsNone result → (place : ℕ) → IsPlace self.now parts.now place → ⊥ }
    {
        if u32::from(self.firsts) <= parts.first {
            return None;
        }
        if u32::from(self.fields) <= parts.field {
            return None;
        }
        let rank = self.rank(parts.first, parts.second)?;
        Some(self.start(parts.first) + parts.field * self.second_count(parts.first) + rank)
    }
}
