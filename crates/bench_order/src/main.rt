//! Times assumptions on the order of 24 terms: 40 random ones and then the 23 links of the chain,
//! again and again.
//!
//! Prints how much was known on the way, which is the same every time; with the argument `times`
//! also the nanoseconds of an assumption. `bench/order/run` compares it with the same loop in Rust.
#![tactic(auto)]

ghost use Rattle.std.specs.Prelude.{◌≡◌, ◌+◌, ◌<◌, ◌≤◌};

use plank_order::{Clash, Preorder, TERMS_LIMIT, Term};
use std::time::Instant;
use std::{env, io};

const ROUNDS: u32 = 100_000;

const RANDOM_ASSUMPTIONS: u32 = 40;

// Marsaglia's xorshift generator of 64 bits.
#[derive(Drop)]
struct Random {
    state: u64,
}

impl Random {
    fn below(&mut self, n: u32) -> u32
        requires { 0 < n }
        ensures { result < n }
    {
        let mut state = self.state;
        state ^= state << 13;
        state ^= state >> 7;
        state ^= state << 17;
        self.state = state;
        (state % u64::from(n)) as u32
    }
}

// What was known when the random assumptions were made, over all rounds.
#[derive(Drop)]
struct Known {
    ends: u32,
    totals: u32,
    clashes: u32,
}

fn count(answer: bool) -> u32
    ensures { result ≤ 1 }
{
    if answer { 1 } else { 0 }
}

fn is_clash(answer: Result<(), Clash>) -> bool {
    answer.is_err()
}

// Assumes so many facts of two random terms that the chain has.
fn assume_random(order: &mut Preorder, random: &mut Random) -> bool
    requires { order.old.terms ≡ 24 }
    ensures { order.new.terms ≡ 24 }
{
    let mut clashed = false;
    for _ in 0..RANDOM_ASSUMPTIONS {
        let a = random.below(TERMS_LIMIT);
        let b = random.below(TERMS_LIMIT);
        clashed |= if a < b {
            is_clash(order.assume_less(Term(a), Term(b)))
        } else {
            is_clash(order.assume_at_most(Term(b), Term(a)))
        };
    }
    clashed
}

fn assume_links(order: &mut Preorder) -> bool
    requires { order.old.terms ≡ 24 }
    ensures { order.new.terms ≡ 24 }
{
    let mut clashed = false;
    for link in 1..TERMS_LIMIT {
        clashed |= is_clash(order.assume_less(Term(link - 1), Term(link)));
    }
    clashed
}

fn run() -> Known {
    let mut random = Random {
        state: 88_172_645_463_325_252,
    };
    let mut known = Known {
        ends: 0,
        totals: 0,
        clashes: 0,
    };
    for _ in 0..ROUNDS {
        let mut order = Preorder::new(TERMS_LIMIT);
        let clashed = assume_random(&mut order, &mut random);
        known.ends += count(order.less(Term(0), Term(TERMS_LIMIT - 1)));
        let clashed_later = assume_links(&mut order);
        known.totals += count(order.is_total());
        known.clashes += count(clashed | clashed_later);
    }
    known
}

fn main(rt: HostRuntime) -> io::Result<()> {
    let timed = env::args(&rt)?.any(|word| word.as_str() == "times");
    let started = Instant::now(&rt)?;
    let Known {
        ends,
        totals,
        clashes,
    } = run();
    let nanoseconds = started.elapsed(&rt)?.as_nanos();
    println!(rt; "{ROUNDS} chains: {totals} total, ends known early in {ends}, {clashes} clashes")?;
    if timed {
        let assumptions = u128::from(ROUNDS * (RANDOM_ASSUMPTIONS + TERMS_LIMIT - 1));
        println!(rt; "{} nanoseconds an assumption", nanoseconds / assumptions)?;
    }
    Ok(())
}
