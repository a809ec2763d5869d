//! The numbers of a list's picture, and what a search has decided of it.
use super::*;
use plank_base::{Key, Label, OutOfMemory};
use plank_pic::Part;
use plank_prog::{Condition, Header, KeyOrder, Pointer, StartNode};
use plank_search::{Reads, Values};
use plank_walk::Reader;
use sqlite_items::Items;
use std::alloc::Global;
use std::test::Fail;

// A list whose nodes have locks and one flag.
fn header(alloc: Global) -> Result<Header, OutOfMemory> {
    let mut pointers = Items::new(alloc);
    pointers.push(Pointer {
        name: Label::new(alloc, b"next")?,
        order: KeyOrder::Ascending,
        edge: None,
    })?;
    let mut flags = Items::new(alloc);
    flags.push(Label::new(alloc, b"marked")?)?;
    let mut nodes = Items::new(alloc);
    nodes.push(StartNode {
        name: Label::new(alloc, b"head")?,
        key: Key::Min,
        flags: 0,
        pointers: Items::new(alloc),
    })?;
    Ok(Header {
        flags,
        pointers,
        has_lock: true,
        nodes,
        root: 0,
        holds: Condition::Constant(true),
        keeps: Items::new(alloc),
        freeze: None,
    })
}

fn shape(header: &Header, names: u8) -> Option<Shape<'_>> {
    if names <= 16 && header.pointers.len() <= 2 && header.flags.len() <= 32 {
        Some(Shape {
            header,
            names,
            root: None,
        })
    } else {
        None
    }
}

// Nothing is kept.
#[derive(Clone, Copy)]
struct KeepsNone;

impl Keeps for KeepsNone {
    ghost use Rattle.std.specs.Prelude.{false};

    ghost keeps = { λ _ _. false };

    fn keeps(&self, _part: Part) -> bool {
        false
    }
}

#[test]
fn numbers_are_dense(rt: HostRuntime) -> Result<(), Fail> {
    let alloc = rt.alloc();
    let header = header(alloc)?;
    let shape = shape(&header, 8).expect(&rt, "small");
    let alone = Numbering::new(alloc, shape, &KeepsAll)?;
    let pair = Numbering::new(alloc, shape, &KeepsNone)?;
    assert_eq!(rt; alone.len(), 525);
    assert_eq!(rt; pair.len(), 2 * 525);
    for number in 0..pair.len() {
        let of = pair.at(number).expect(&rt, "a part");
        assert_eq!(rt; pair.number(of.side, of.part), number);
    }
    Ok(())
}

#[test]
fn a_view_reads_its_side(rt: HostRuntime) -> Result<(), Fail> {
    let alloc = rt.alloc();
    let header = header(alloc)?;
    let shape = shape(&header, 2).expect(&rt, "small");
    let numbering = Numbering::new(alloc, shape, &KeepsNone)?;
    let given = vec![in alloc; None; numbering.len()]?;
    let mut values = Values::new(alloc, given.as_slice())?;
    let part = Part::Flag { name: 1, flag: 0 };
    let number = numbering.number(Side::After, part);
    if values.get(number).is_none() {
        values.put(number, true);
    }
    let view = View {
        numbering: &numbering,
        values: &values,
        side: Side::After,
    };
    let before = View {
        side: Side::Before,
        ..view
    };
    let mut reads = Reads::new(alloc, 8)?;
    assert_eq!(rt; view.says(part, &mut reads), Ok(true));
    assert_eq!(rt;
        before.says(part, &mut reads),
        Err(numbering.number(Side::Before, part)),
    );
    assert_eq!(rt;
        view.says(Part::Flag { name: 2, flag: 0 }, &mut reads),
        Ok(false),
    );
    Ok(())
}
