ghost use Rattle.std.specs.Prelude.{◌≡◌, ◌≤◌, ◌<◌};
ghost use Rattle.plank_pic.specs.Pictures.{place};
ghost use Rattle.plank_parts.specs.Codes as codes;

use plank_pic::{KeyName, Part, Place, Term};

/// One more than the greatest code of a part of a small frame.
pub const CODES: usize = 8704;

#[inline(always)]
fn key_digit(key: KeyName) -> usize
    ensures number { result ≡ codes.key_digit key }
    ensures below { result < 3 }
{
    match key {
        KeyName::Own => 0,
        KeyName::Other => 1,
        KeyName::Any => 2,
    }
}

#[inline(always)]
fn stop_digit(key: KeyName, slot: u8) -> usize
    ensures number { result ≡ codes.stop_digit key slot }
    ensures below { result < 300 }
{
    2 * key_digit(key) + slot as usize
}

#[inline(always)]
fn place_digit(at: Place) -> usize
    ensures number { result ≡ codes.place_digit at }
    ensures below { result < 5000 }
{
    at.pointer as usize * 16 + at.name as usize
}

#[inline(always)]
fn term_kind(term: Term) -> usize
    ensures number { result ≡ codes.term_kind term }
    ensures below { result < 2 }
{
    match term {
        Term::Node(_) => 0,
        Term::Min | Term::Max | Term::Walked(_) | Term::Stop { .. } => 1,
    }
}

#[inline(always)]
fn term_digit(term: Term) -> usize
    ensures number { result ≡ codes.term_digit term }
    ensures below { result < 400 }
{
    match term {
        Term::Node(name) => name as usize,
        Term::Min => 0,
        Term::Max => 1,
        Term::Walked(key) => 2 + key_digit(key),
        Term::Stop { key, slot } => 5 + stop_digit(key, slot),
    }
}

#[inline(always)]
fn code_of(kind: usize, a: usize, b: usize) -> usize
    requires kind { kind < 10_000 }
    requires a { a < 10_000 }
    requires b { b < 10_000 }
    ensures { result ≡ codes.code_of kind a b }
{
    (kind * 16 + a) * 32 + b
}

/// The code of a part.
#[inline(always)]
pub fn part_code(part: Part) -> usize
    ensures { result ≡ codes.part_code part }
{
    match part {
        Part::Null { name } => code_of(0, 0, name as usize),
        Part::Shared { name } => code_of(0, 1, name as usize),
        Part::Mine { name } => code_of(0, 2, name as usize),
        Part::Locked { name } => code_of(0, 3, name as usize),
        Part::LockMine { name } => code_of(0, 4, name as usize),
        Part::LockOthers { name } => code_of(0, 5, name as usize),
        Part::Visits { key, name } => code_of(0, 6 + key_digit(key), name as usize),
        Part::PointerNull { at } => code_of(0, 9 + at.pointer as usize, at.name as usize),
        Part::Beyond { at } => code_of(0, 11 + at.pointer as usize, at.name as usize),
        Part::InSet { key } => code_of(0, 13, key_digit(key)),
        Part::Spent => code_of(0, 14, 0),
        Part::StopVisited { key, slot } => code_of(0, 15, stop_digit(key, slot)),
        Part::Flag { name, flag } => code_of(1, name as usize, flag as usize),
        Part::StopFlag { key, slot, flag } => code_of(2, stop_digit(key, slot), flag as usize),
        Part::Same { left, right } => code_of(3, left as usize, right as usize),
        Part::Chain { from, to } => code_of(4, from as usize, to as usize),
        Part::Leads { at, to } => code_of(5 + at.pointer as usize, at.name as usize, to as usize),
        Part::SameBeyond { left, right } => code_of(
            7 + left.pointer as usize,
            left.name as usize,
            place_digit(right),
        ),
        Part::AtMost { left, right } => code_of(
            9 + term_kind(left),
            term_digit(left),
            16 * term_kind(right) + term_digit(right),
        ),
        Part::Picks {
            key,
            from,
            to,
            slot,
        } => code_of(11 + stop_digit(key, slot), from as usize, to as usize),
    }
}

fn key_from(digit: u8) -> KeyName
    ensures { result ≡ codes.key_from digit }
{
    if digit == 0 {
        KeyName::Own
    } else if digit == 1 {
        KeyName::Other
    } else {
        KeyName::Any
    }
}

fn place(name: u8, pointer: u8) -> Place
    ensures { result ≡ place name pointer }
{
    Place { name, pointer }
}

fn fixed_term(digit: u8) -> Term
    ensures { result ≡ codes.fixed_term digit }
{
    if digit == 0 {
        Term::Min
    } else if digit == 1 {
        Term::Max
    } else if digit < 5 {
        Term::Walked(key_from(digit - 2))
    } else {
        Term::Stop {
            key: key_from((digit - 5) / 2),
            slot: (digit - 5) % 2,
        }
    }
}

fn term_from(digit: u8) -> Term
    ensures { result ≡ codes.term_from digit }
{
    if digit < 16 {
        Term::Node(digit)
    } else {
        fixed_term(digit - 16)
    }
}

fn name_part(a: u8, name: u8) -> Part
    requires { a < 9 }
    ensures { result ≡ codes.name_part a name }
{
    if a == 0 {
        Part::Null { name }
    } else if a == 1 {
        Part::Shared { name }
    } else if a == 2 {
        Part::Mine { name }
    } else if a == 3 {
        Part::Locked { name }
    } else if a == 4 {
        Part::LockMine { name }
    } else if a == 5 {
        Part::LockOthers { name }
    } else {
        Part::Visits {
            key: key_from(a - 6),
            name,
        }
    }
}

fn lone_part(a: u8, b: u8) -> Part
    requires { 9 ≤ a }
    ensures { result ≡ codes.lone_part a b }
{
    if a < 11 {
        Part::PointerNull {
            at: place(b, a - 9),
        }
    } else if a < 13 {
        Part::Beyond {
            at: place(b, a - 11),
        }
    } else if a == 13 {
        Part::InSet { key: key_from(b) }
    } else if a == 14 {
        Part::Spent
    } else {
        Part::StopVisited {
            key: key_from(b / 2),
            slot: b % 2,
        }
    }
}

fn pair_part(kind: u8, a: u8, b: u8) -> Part
    requires { 3 ≤ kind }
    ensures { result ≡ codes.pair_part kind a b }
{
    if kind == 3 {
        Part::Same { left: a, right: b }
    } else if kind == 4 {
        Part::Chain { from: a, to: b }
    } else if kind < 7 {
        Part::Leads {
            at: place(a, kind - 5),
            to: b,
        }
    } else {
        Part::SameBeyond {
            left: place(a, kind - 7),
            right: place(b % 16, b / 16),
        }
    }
}

fn part_from(kind: u8, a: u8, b: u8) -> Part
    requires kind { kind < 17 }
    requires a { a < 16 }
    ensures { result ≡ codes.part_from kind a b }
{
    if kind == 0 {
        if a < 9 {
            name_part(a, b)
        } else {
            lone_part(a, b)
        }
    } else if kind == 1 {
        Part::Flag { name: a, flag: b }
    } else if kind == 2 {
        Part::StopFlag {
            key: key_from(a / 2),
            slot: a % 2,
            flag: b,
        }
    } else if kind < 9 {
        pair_part(kind, a, b)
    } else if kind < 11 {
        Part::AtMost {
            left: term_from(16 * (kind - 9) + a),
            right: term_from(b),
        }
    } else {
        Part::Picks {
            key: key_from((kind - 11) / 2),
            from: a,
            to: b,
            slot: (kind - 11) % 2,
        }
    }
}

/// The part of a code.
pub fn part_of(code: usize) -> Part
    requires { code < 8704 }
    ensures { result ≡ codes.part_of code }
{
    part_from(
        (code / 32 / 16) as u8,
        (code / 32 % 16) as u8,
        (code % 32) as u8,
    )
}
