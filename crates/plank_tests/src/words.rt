//! What words ask for.
use plank_base::OutOfMemory;
use plank_words::{Asked, Command, WordsFault, asked_by};
use std::alloc::Global;

fn asked(alloc: Global, words: &[&str]) -> Result<Result<Asked, WordsFault>, OutOfMemory> {
    let mut owned = Vec::new(alloc);
    for word in words {
        owned.push(String::from_str(alloc, word)?)?;
    }
    Ok(asked_by(alloc, &owned))
}

const TAKEN: [(&[&str], Asked); 14] = [
    (&["verify"], Asked::Serve(Command::Verify, 1)),
    (&["effects"], Asked::Serve(Command::Effects, 1)),
    (&["print"], Asked::Serve(Command::Print, 1)),
    (
        &["verify", "--workers", "2"],
        Asked::Serve(Command::Verify, 2),
    ),
    (
        &["verify", "--workers=64"],
        Asked::Serve(Command::Verify, 64),
    ),
    (
        &["verify", "--workers", "0002"],
        Asked::Serve(Command::Verify, 2),
    ),
    (
        &["effects", "--workers=0000000003"],
        Asked::Serve(Command::Effects, 3),
    ),
    (
        &["effects", "--workers", "1"],
        Asked::Serve(Command::Effects, 1),
    ),
    // what follows two hyphens is no option, and nothing follows
    (&["verify", "--"], Asked::Serve(Command::Verify, 1)),
    (&["print", "--"], Asked::Serve(Command::Print, 1)),
    (
        &["verify", "--workers", "5", "--"],
        Asked::Serve(Command::Verify, 5),
    ),
    (&["large", "2"], Asked::Large(2)),
    (&["large", "16"], Asked::Large(16)),
    (&["large", "0008"], Asked::Large(8)),
];

#[test]
fn words_that_a_command_takes_ask_for_it(rt: HostRuntime) {
    for (words, wanted) in TAKEN {
        assert!(rt; asked(rt.alloc(), words) == Ok(Ok(wanted)));
    }
}

const REFUSED: [&[&str]; 24] = [
    &[],
    &[""],
    &["prove"],
    &["Verify"],
    &["--workers", "2"],
    &["verify", "x"],
    &["print", "x"],
    &["effects", "effects"],
    // a number of workers that is none, or out of its range
    &["verify", "--workers", "0"],
    &["verify", "--workers", "65"],
    &["verify", "--workers=65"],
    &["verify", "--workers"],
    &["verify", "--workers="],
    &["verify", "--workers", "+2"],
    &["verify", "--workers", "00000000002"],
    &["verify", "--workers", "2", "2"],
    &["verify", "--workers", "2", "--workers", "2"],
    &["verify", "--worker", "2"],
    &["verify", "--help"],
    &["print", "--workers", "2"],
    // a number of methods likewise
    &["large"],
    &["large", "1"],
    &["large", "17"],
    &["large", "2", "--workers=2"],
];

#[test]
fn other_words_are_usage_faults(rt: HostRuntime) {
    for words in REFUSED {
        assert!(rt; asked(rt.alloc(), words) == Ok(Err(WordsFault::Usage)));
    }
}
