ghost use Rattle.std.specs.Prelude.{◌≡◌, ℕ, ◌*◌, ◌<◌, ◌==◌, ◌↔◌, ◌||◌, false, length, slice_index, slice_set, IsTrue, IfOk};
ghost use Rattle.plank_bits.specs.Words.{has, IsWithin};

use crate::words;
use plank_base::OutOfMemory;
use std::alloc::Global;
use std::marker::Model;

/// A set of marks, kept in words of 64 bits: word i holds the marks from `64 * i` on, the first in its
/// lowest bit.
///
/// Contracts see it as the list of its words, whose length no call changes; `has` says which marks are set.
#[derive(Debug, Drop)]
pub struct MarkWords {
    words: Vec<u64>,
    len: u32,
}

impl Model for MarkWords {
    ghost use Rattle.std.specs.Prelude.{List, ℕ, ◌≡◌, length};

    ghost Value = { List ℕ };

    ghost view = { λ marks. marks.words.items };

    ghost invariant = { λ marks. length marks.words.items ≡ marks.len };
}

impl MarkWords {
    /// So many words without marks.
    pub fn new(alloc: Global, words: u32) -> Result<MarkWords, OutOfMemory>
        ensures length { IfOk result (λ marks. length marks ≡ words) }
        ensures none { IfOk result (λ marks. (k : ℕ) → has marks k ≡ false) }
    {
        match vec![in alloc; 0; words as usize] {
            Ok(zeros) => Ok(MarkWords {
                words: zeros,
                len: words,
            }),
            Err(_) => Err(OutOfMemory),
        }
    }

    /// The number of words.
    pub fn len(&self) -> u32
        ensures { result ≡ length self.now }
    {
        self.len
    }

    /// The word of the marks from `64 * i` on.
    pub fn word(&self, i: u32) -> u64
        requires { i < length self.now }
        ensures { result ≡ slice_index self.now i }
    {
        self.words[i as usize]
    }

    /// Puts a word in the place of the one that is there.
    pub fn put_word(&mut self, i: u32, word: u64)
        requires { i < length self.old }
        ensures { self.new ≡ slice_set self.old i word }
    {
        self.words[i as usize] = word;
    }

    /// Whether a mark is set.
    pub fn has(&self, mark: u32) -> bool
        requires { mark < 64 * length self.now }
        ensures { result ≡ has self.now mark }
    {
        words::contains(self.words.as_slice(), mark)
    }

    /// Sets a mark.
    pub fn set(&mut self, mark: u32)
        requires { mark < 64 * length self.old }
        ensures length { length self.new ≡ length self.old }
        ensures marks { (k : ℕ) → has self.new k ≡ (has self.old k || (k == mark)) }
    {
        words::insert(self.words.as_mut_slice(), mark);
    }

    /// Sets every mark that is set in the other.
    pub fn union_with(&mut self, other: &MarkWords)
        requires { length self.old ≡ length other.now }
        ensures length { length self.new ≡ length self.old }
        ensures marks { (k : ℕ) → has self.new k ≡ (has self.old k || has other.now k) }
    {
        words::unite(self.words.as_mut_slice(), other.words.as_slice());
    }

    /// Whether every mark is set in the other too.
    pub fn subset(&self, other: &MarkWords) -> bool
        requires { length self.now ≡ length other.now }
        ensures { IsTrue result ↔ IsWithin (has self.now) (has other.now) }
    {
        words::are_within(self.words.as_slice(), other.words.as_slice())
    }
}
