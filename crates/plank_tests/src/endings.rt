//! How a call ends: its status, and the faults of the outside.
use crate::calls::{ENDS, ONE, Outside, answers, called};
use plank_base::{Kind, Obligation, OutOfMemory, Place, Thing};
use plank_top::Status;
use std::alloc::Global;

/// The structure of one node with a method that answers true.
const ONE_TRUE: &[u8] =
    b"structure one;\nroot a;\nstart a { key = MIN; }\nholds false;\nmethod contains(k) { return true; }\n";

/// An answer without cause, at its return.
const UNJUSTIFIED: Status = Status::Rejected(Obligation {
    kind: Kind::Answer,
    method: 0,
    location: 0,
    place: Place {
        line: 5,
        column: 22,
        byte: 80,
    },
});

/// Words, a text, the status, and what is written.
const ENDINGS: [(&[&str], &[u8], Status, &[u8]); 3] = [
    (
        &["verify"],
        ONE,
        Status::Accepted,
        b"structure one\neffects 0\naccepted\n",
    ),
    (
        &["verify"],
        ONE_TRUE,
        UNJUSTIFIED,
        b"structure one\neffects 0\nrejected answer in contains at 5:22\n",
    ),
    (
        &["effects"],
        ENDS,
        Status::Done,
        b"structure ends\neffects 0\n",
    ),
];

/// Words that ask for nothing.
const REFUSED: [&[&str]; 11] = [
    &[],
    &["prove"],
    &["verify", "--workers", "0"],
    &["verify", "--workers", "65"],
    &["verify", "--workers"],
    &["verify", "x"],
    &["verify", "--workers=3", "x"],
    &["effects", "effects"],
    &["print", "x"],
    &["large", "1"],
    &["large", "17"],
];

#[test]
fn calls_end_with_the_status_of_their_answer(rt: HostRuntime) {
    for (words, text, status, output) in ENDINGS {
        assert!(rt; answers(&rt, rt.alloc(), words, text, status, output) == Ok(true));
    }
    for words in REFUSED {
        assert!(rt;
            answers(&rt, rt.alloc(), words, ONE, Status::Usage, b"usage fault\n") == Ok(true)
        );
    }
}

/// The text with a comment after it that fills it up to this length.
fn filled_up(alloc: Global, text: &[u8], length: usize) -> Result<Vec<u8>, OutOfMemory> {
    let mut filled = Vec::from_slice(alloc, text)?;
    filled.extend_from_slice(b"//")?;
    for _ in filled.len()..length {
        filled.push(b'a')?;
    }
    Ok(filled)
}

/// How long a text is, the status, and what is written.
const LENGTHS: [(usize, Status, &[u8]); 2] = [
    (
        131_072,
        Status::Accepted,
        b"structure one\neffects 0\naccepted\n",
    ),
    (
        131_073,
        Status::TooLarge(Thing::Bytes, 131_073, 131_072),
        b"too large bytes 131073 131072\n",
    ),
];

#[test]
fn a_text_may_have_so_many_bytes(rt: HostRuntime) {
    for (length, status, output) in LENGTHS {
        let text = filled_up(rt.alloc(), ONE, length).expect(&rt, "memory");
        assert!(rt; answers(&rt, rt.alloc(), &["verify"], &text, status, output) == Ok(true));
    }
}

#[test]
fn a_source_that_fails_is_a_read_fault_and_nothing_is_written(rt: HostRuntime) {
    let outside = Outside {
        read_most: 64,
        read_fails: &[2],
        write_most: 4096,
        write_fails: &[],
    };
    let (status, taken) = called(&rt, rt.alloc(), &["verify"], ENDS, &outside).expect(
        &rt, "memory",
    );
    assert_eq!(rt; status, Status::ReadFault);
    assert!(rt; taken.is_empty());
}

/// A command and what it reads, with the eight bytes that are taken of its output where the sink takes four at a time
/// and fails at its third call. Each kind of answer that is not too slow here stands once: reports, a print, a trace,
/// and each line that is an answer by itself.
const CUT: [(&str, &[u8], &[u8]); 12] = [
    ("verify", ONE, b"structur"),
    ("verify", ONE_TRUE, b"structur"),
    ("effects", ONE, b"structur"),
    ("print", ONE, b"structur"),
    (
        "trace",
        b"0 call contains 5\n0 go\ntext\nstructure one;\nroot a;\nstart a { key = MIN; }\nholds false;\nmethod contains(k) { return false; }\n",
        b"1 0 call",
    ),
    ("verify", b"", b"malforme"),
    (
        "verify",
        b"structure one;\nholds false;\nmethod contains(k) { return false; }\n",
        b"ill-type",
    ),
    (
        "verify",
        b"structure one;\nptr a free; ptr b free; ptr c free;\nroot a;\nstart a { key = MIN; }\nholds false;\nmethod contains(k) { return false; }\n",
        b"too larg",
    ),
    ("prove", ONE, b"usage fa"),
    ("large", ONE, b"usage fa"),
    ("trace", b"0 gone\n", b"bad sche"),
    (
        "trace",
        b"0 go\ntext\nstructure one;\nroot a;\nstart a { key = MIN; }\nholds false;\nmethod contains(k) { return false; }\n",
        b"bad step",
    ),
];

#[test]
fn a_sink_that_fails_is_a_write_fault_and_keeps_what_it_took(rt: HostRuntime) {
    let outside = Outside {
        read_most: 4096,
        read_fails: &[],
        write_most: 4,
        write_fails: &[3],
    };
    for (command, text, cut) in CUT {
        let (status, taken) = called(&rt, rt.alloc(), &[command], text, &outside).expect(
            &rt, "memory",
        );
        assert_eq!(rt; status, Status::WriteFault);
        assert!(rt; taken.as_slice() == cut);
    }
}
