ghost use Rattle.std.specs.Prelude.{◌≡◌, ◌++◌, OnOk};
ghost use Rattle.std.specs.Fmt.{decimal};
ghost use Rattle.plank_report.specs.Pieces.{place_text, line};

use plank_base::{OutOfMemory, Place};
use std::alloc::Global;

/// Adds a piece to the end of a text.
pub fn append(out: &mut Vec<u8>, piece: &[u8]) -> Result<(), OutOfMemory>
    ensures { OnOk result (out.new.items ≡ out.old.items ++ piece.now) }
{
    out.extend_from_slice(piece)?;
    Ok(())
}

/// Adds a text and a line feed.
pub fn append_line(out: &mut Vec<u8>, piece: &[u8]) -> Result<(), OutOfMemory>
    ensures { OnOk result (out.new.items ≡ out.old.items ++ line piece.now) }
{
    append(out, piece)?;
    append(out, b"\n")
}

/// Adds a number in decimal.
pub fn append_decimal(alloc: Global, out: &mut Vec<u8>, n: u32) -> Result<(), OutOfMemory>
    ensures { OnOk result (out.new.items ≡ out.old.items ++ decimal n) }
{
    let digits = n.to_string(alloc)?;
    append(out, digits.as_bytes())
}

/// Adds the line and the column of a place.
pub fn append_place(alloc: Global, out: &mut Vec<u8>, place: Place) -> Result<(), OutOfMemory>
    ensures { OnOk result (out.new.items ≡ out.old.items ++ place_text place) }
{
    append_decimal(alloc, out, place.line)?;
    append(out, b":")?;
    append_decimal(alloc, out, place.column)
}

// Several pieces, one after the other.
pub fn append_two(out: &mut Vec<u8>, first: &[u8], second: &[u8]) -> Result<(), OutOfMemory>
    ensures { OnOk result (out.new.items ≡ out.old.items ++ first.now ++ second.now) }
{
    append(out, first)?;
    append(out, second)
}

pub fn append_three(
    out: &mut Vec<u8>,
    first: &[u8],
    second: &[u8],
    third: &[u8],
) -> Result<(), OutOfMemory>
    ensures { OnOk result (out.new.items ≡ out.old.items ++ first.now ++ second.now ++ third.now) }
{
    append_two(out, first, second)?;
    append(out, third)
}

pub fn append_four(
    out: &mut Vec<u8>,
    first: &[u8],
    second: &[u8],
    third: &[u8],
    fourth: &[u8],
) -> Result<(), OutOfMemory>
    ensures { OnOk result (out.new.items
        ≡ out.old.items ++ first.now ++ second.now ++ third.now ++ fourth.now) }
{
    append_two(out, first, second)?;
    append_two(out, third, fourth)
}
