//! Forcings by tables of rules.
ghost use Rattle.std.specs.Prelude.{◌≡◌, ◌↔◌, ℕ, ◌*◌, ◌<◌, ◌≤◌, ◌⊎◌, true, length, IsTrue, IfOk, vec_len};
ghost use Rattle.plank_bits.specs.Words.{has};
ghost use Rattle.plank_crew_tests.specs.Rules.{AreSet, Applies};

use plank_base::OutOfMemory;
use plank_bits::{MarkWords, Steps};
use plank_board::Forcing;
use std::alloc::Global;
use std::sync::ledger::Ledger;

/// A method forces a mark where each mark of a range is set.
#[derive(Clone, Copy)]
pub struct Rule {
    pub method: u32,
    pub from: u32,
    pub until: u32,
    pub mark: u32,
}

/// Rules for so many methods and words.
#[derive(Drop)]
pub struct Table {
    rules: Vec<Rule>,
    methods: u32,
    words: u32,
    ghost few: { words ≤ 4096 },
}

impl Table {
    /// No rules yet.
    pub fn new(alloc: Global, methods: u32, words: u32) -> Table
        requires { words ≤ 4096 }
        ensures { (result.methods ≡ methods) × (result.words ≡ words) }
    {
        Table {
            rules: Vec::new(alloc),
            methods,
            words,
        }
    }

    /// One more rule.
    pub fn add(&mut self, method: u32, from: u32, until: u32, mark: u32) -> Result<(), OutOfMemory>
        ensures { (self.new.methods ≡ self.old.methods) × (self.new.words ≡ self.old.words) }
    {
        self.rules.push(Rule {
            method,
            from,
            until,
            mark,
        })?;
        Ok(())
    }
}

fn is_set(marks: &MarkWords, mark: u32) -> bool
    requires { length marks.now ≤ 4096 }
    ensures { result ≡ has marks.now mark }
{
    mark < 64 * marks.len() && marks.has(mark)
}

fn are_set(marks: &MarkWords, from: u32, until: u32) -> bool
    requires { length marks.now ≤ 4096 }
    ensures { IsTrue result ↔ AreSet (has marks.now) from until }
{
    for mark in from..until {
        if !is_set(marks, mark) {
            return false;
        }
    }
    true
}

// Sets the mark of a rule, where it applies.
fn apply(rule: &Rule, m: u32, marks: &MarkWords, found: &mut MarkWords)
    requires words { length marks.now ≤ 4096 }
    requires found { length found.old ≤ 4096 }
    ensures length { length found.new ≡ length found.old }
    ensures marks { (k : ℕ) → (has found.new k ≡ true) ↔ ((has found.old k ≡ true) ⊎ ((k < 64 * length found.old) × Applies rule.now m (has marks.now) k)) }
{
    let applies = rule.method == m && rule.mark < 64 * found.len();
    if applies && are_set(marks, rule.from, rule.until) {
        found.set(rule.mark);
    }
}

impl Forcing for Table {
    ghost use Rattle.plank_crew_tests.specs.Rules.{IsForced, Applies};

    ghost method_count = { λ t. t.methods };

    ghost word_count = { λ t. t.words };

    ghost forces = { λ t m marks k. IsForced t.rules.items t.words (vec_len t.rules) m marks k };

    ghost still = { λ t m marks. (k : ℕ) → IsForced t.rules.items t.words (vec_len t.rules) m marks k → marks k ≡ true };

    ghost monotone = { λ t m k a b h w f. record { below = f.below; rule = f.rule; within = f.within; applies = λ d. record { method = (f.applies d).method; mark = (f.applies d).mark; set = λ j low high. w j ((f.applies d).set j low high) } } };

    ghost bounded = { λ t m k a h f. f.below };

    ghost closing = { λ t m k a h still f. still k f };

    fn methods(&self) -> u32 {
        self.methods
    }

    fn words(&self) -> u32 {
        self.words
    }

    fn force<L: Ledger>(
        &self,
        alloc: Global,
        m: u32,
        marks: &MarkWords,
        steps: &mut Steps<L>,
    ) -> Result<MarkWords, OutOfMemory> {
        steps.tick();
        let mut found = MarkWords::new(alloc, self.words)?;
        for i in 0..self.rules.len() {
            apply(&self.rules[i], m, marks, &mut found);
        }
        Ok(found)
    }

    fn is_quick(&self, _m: u32) -> bool {
        false
    }

    fn is_woken(&self, _m: u32, _word: u32) -> bool {
        true
    }
}
