//! Pictures of two names, drawn by numbers: the root's node, of the least key and not marked, and what
//! the name p is. The walked keys are one key. What is said of the other call's is what is said of any
//! key's, for no question speaks of it.
use plank_parts::{CODES, Shape, part_of};
use plank_pic::{KeyName, Part, Place, Term};
use plank_prog::Header;
use plank_whole::Picture;
use std::alloc::Global;

/// How many numbers there are; some are of no sketch.
pub const SKETCHES: u32 = 92_160;

const KEY: u8 = 4;

/// What p names.
#[derive(Clone, Copy, PartialEq, Eq)]
enum Naming {
    Null,
    Root,
    Other,
}

/// Where a pointer leads.
#[derive(Clone, Copy, PartialEq, Eq)]
enum Way {
    Null,
    Root,
    Other,
    Outside,
}

#[derive(Clone, Copy, PartialEq, Eq)]
enum Owner {
    Nobody,
    Own,
    Other,
}

/// A picture.
#[derive(Clone, Copy)]
pub struct Sketch {
    naming: Naming,
    // The place of p's key.
    place: u8,
    marked: bool,
    owner: Owner,
    root_way: Way,
    other_way: Way,
    // Whether both lead to one node, if outside.
    together: bool,
    // Whether the own key and any key visit p, and whether they are in the set, by bits.
    visits: u32,
    in_set: u32,
    spent: bool,
}

// Takes the last digit of a number.
fn digit(number: &mut u32, base: u32) -> u32 {
    let last = number.checked_rem(base).unwrap_or(0);
    *number = number.checked_div(base).unwrap_or(0);
    last
}

fn way_of(digit: u32) -> Way {
    match digit {
        0 => Way::Null,
        1 => Way::Root,
        2 => Way::Other,
        _ => Way::Outside,
    }
}

fn naming_of(digit: u32) -> Naming {
    match digit {
        0 => Naming::Null,
        1 => Naming::Root,
        _ => Naming::Other,
    }
}

fn owner_of(digit: u32) -> Owner {
    match digit {
        0 => Owner::Nobody,
        1 => Owner::Own,
        _ => Owner::Other,
    }
}

fn place_of(digit: u32) -> u8 {
    match digit {
        0 => 0,
        1 => 2,
        2 => KEY,
        3 => 6,
        _ => 9,
    }
}

fn bit_of(key: KeyName) -> u32 {
    match key {
        KeyName::Own => 1,
        KeyName::Other | KeyName::Any => 2,
    }
}

impl Sketch {
    // Whether a sketch of another number draws the same.
    fn is_drawn_twice(&self) -> bool {
        let outside = self.root_way == Way::Outside && self.other_way == Way::Outside;
        let bare = !self.marked && self.visits == 0 && self.owner == Owner::Nobody;
        match self.naming {
            Naming::Other => self.together && !outside,
            Naming::Root => {
                self.together || self.other_way != Way::Null || self.place != 0 || !bare
            }
            Naming::Null => self.together || self.other_way != Way::Null || !bare,
        }
    }

    /// The sketch of a number.
    pub fn of(number: u32) -> Option<Sketch> {
        let sketch = Sketch::drawn(number);
        if sketch.is_drawn_twice() {
            None
        } else {
            Some(sketch)
        }
    }

    /// Whether the own key is not in the set, and the own call has not changed it.
    pub fn is_quiet(&self) -> bool {
        !self.spent && self.in_set & bit_of(KeyName::Own) == 0
    }

    fn drawn(mut number: u32) -> Sketch {
        let number = &mut number;
        Sketch {
            spent: digit(number, 2) == 1,
            in_set: digit(number, 4),
            visits: digit(number, 4),
            together: digit(number, 2) == 1,
            other_way: way_of(digit(number, 4)),
            root_way: way_of(digit(number, 4)),
            owner: owner_of(digit(number, 3)),
            marked: digit(number, 2) == 1,
            place: place_of(digit(number, 5)),
            naming: naming_of(digit(number, 3)),
        }
    }

    // Whether a name names the root's node, or the other.
    fn is_root(&self, name: u8) -> bool {
        name == 0 || self.naming == Naming::Root
    }

    fn is_other(&self, name: u8) -> bool {
        name == 1 && self.naming == Naming::Other
    }

    fn is_null(&self, name: u8) -> bool {
        name == 1 && self.naming == Naming::Null
    }

    fn way(&self, name: u8) -> Option<Way> {
        if self.is_root(name) {
            Some(self.root_way)
        } else if self.is_other(name) {
            Some(self.other_way)
        } else {
            None
        }
    }

    fn leads(&self, at: Place, to: u8) -> bool {
        match self.way(at.name) {
            Some(Way::Root) => self.is_root(to),
            Some(Way::Other) => self.is_other(to),
            _ => false,
        }
    }

    fn lead_together(&self, left: Place, right: Place) -> bool {
        self.way(left.name) == Some(Way::Outside)
            && self.way(right.name) == Some(Way::Outside)
            && (self.together || self.is_other(left.name) == self.is_other(right.name))
    }

    fn place(&self, term: Term) -> u8 {
        match term {
            Term::Node(name) => if self.is_root(name) { 0 } else { self.place },
            Term::Max => 9,
            Term::Walked(_) => KEY,
            Term::Min | Term::Stop { .. } => 0,
        }
    }

    fn says(&self, part: Part) -> bool {
        match part {
            Part::Null { name } => self.is_null(name),
            Part::Same { left, right }
            | Part::Chain {
                from: left,
                to: right,
            } => {
                (self.is_root(left) && self.is_root(right))
                    || (self.is_other(left) && self.is_other(right))
            }
            Part::Flag { name, .. } => self.is_other(name) && self.marked,
            Part::Shared { name } => {
                self.is_root(name) || (self.is_other(name) && self.owner == Owner::Nobody)
            }
            Part::Mine { name } => self.is_other(name) && self.owner == Owner::Own,
            Part::PointerNull { at } => self.way(at.name) == Some(Way::Null),
            Part::Beyond { at } => self.way(at.name) == Some(Way::Outside),
            Part::Leads { at, to } => self.leads(at, to),
            Part::SameBeyond { left, right } => self.lead_together(left, right),
            Part::AtMost { left, right } => self.place(left) <= self.place(right),
            Part::Visits { key, name } => {
                self.is_root(name) || (self.is_other(name) && self.visits & bit_of(key) != 0)
            }
            Part::InSet { key } => self.in_set & bit_of(key) != 0,
            Part::Spent => self.spent,
            _ => false,
        }
    }

    /// The picture.
    pub fn picture<'a>(&self, shape: Shape<'a>, parts: &[Part]) -> Picture<'a> {
        let mut picture = Picture::new(shape);
        for part in parts {
            if self.says(*part) {
                picture.put(*part);
            }
        }
        picture
    }
}

/// Two names of a structure, of which the first is the root's.
pub fn two_names(header: &Header) -> Option<Shape<'_>> {
    if header.pointers.len() > 2 || header.flags.len() > 32 {
        return None;
    }
    Some(Shape {
        header,
        names: 2,
        root: Some(0),
    })
}

/// The parts of a frame.
pub fn parts_of(alloc: Global, shape: Shape<'_>) -> Option<Vec<Part>> {
    let mut parts = Vec::new(alloc);
    for code in 0..CODES {
        let part = part_of(code);
        if shape.fits(part) {
            parts.push(part).ok()?;
        }
    }
    Some(parts)
}
