// Sets of numbers as slices of words of 64 bits: what `Bits` and `MarkWords` share.
ghost use Rattle.std.specs.Prelude.{◌≡◌, ℕ, ◌+◌, ◌*◌, ◌/◌, ◌%◌, ◌^◌, ◌<◌, ◌≤◌, ◌==◌, ◌↔◌, ◌&&◌, ◌||◌, not, false, length, IsTrue, IfSome, IfNone, count_ones};
ghost use Rattle.plank_bits.specs.Words.{is_set, has, IsWithin, count_below, IsLeastFrom};

fn bit_is_set(word: u64, k: u32) -> bool
    requires { k < 64 }
    ensures { result ≡ is_set word k }
{
    word & (1 << k) != 0
}

fn with_bit(word: u64, k: u32) -> u64
    requires { k < 64 }
    ensures { (i : ℕ) → is_set result i ≡ (is_set word i || (i == k)) }
{
    word | (1 << k)
}

fn word_is_within(word: u64, other: u64) -> bool
    ensures { IsTrue result ↔ IsWithin (is_set word) (is_set other) }
{
    word & !other == 0
}

// The lowest set bit from bit k on.
fn lowest_from(word: u64, k: u32) -> Option<u32>
    requires { k < 64 }
    ensures found { IfSome result (IsLeastFrom (is_set word) k) }
    ensures below { IfSome result (λ i. i < 64) }
    ensures none { IfNone result ((i : ℕ) → k ≤ i → is_set word i ≡ false) }
{
    let rest = word & (u64::MAX << k);
    if rest == 0 {
        None
    } else {
        Some(rest.trailing_zeros())
    }
}

pub(crate) fn contains(words: &[u64], i: u32) -> bool
    ensures { result ≡ has words.now i }
{
    let at = (i / 64) as usize;
    at < words.len() && bit_is_set(words[at], i % 64)
}

pub(crate) fn insert(words: &mut [u64], i: u32)
    requires { i < 64 * length words.old }
    ensures { (k : ℕ) → has words.new k ≡ (has words.old k || (k == i)) }
{
    let at = (i / 64) as usize;
    words[at] = with_bit(words[at], i % 64);
}

pub(crate) fn unite(words: &mut [u64], other: &[u64])
    requires { length words.old ≡ length other.now }
    ensures { (k : ℕ) → has words.new k ≡ (has words.old k || has other.now k) }
{
    for i in 0..words.len() {
        words[i] |= other[i];
    }
}

pub(crate) fn intersect(words: &mut [u64], other: &[u64])
    requires { length words.old ≡ length other.now }
    ensures { (k : ℕ) → has words.new k ≡ (has words.old k && has other.now k) }
{
    for i in 0..words.len() {
        words[i] &= other[i];
    }
}

pub(crate) fn subtract(words: &mut [u64], other: &[u64])
    requires { length words.old ≡ length other.now }
    ensures { (k : ℕ) → has words.new k ≡ (has words.old k && not (has other.now k)) }
{
    for i in 0..words.len() {
        words[i] &= !other[i];
    }
}

pub(crate) fn are_within(words: &[u64], other: &[u64]) -> bool
    requires { length words.now ≡ length other.now }
    ensures { IsTrue result ↔ IsWithin (has words.now) (has other.now) }
{
    for i in 0..words.len() {
        if !word_is_within(words[i], other[i]) {
            return false;
        }
    }
    true
}

pub(crate) fn count(words: &[u64]) -> u32
    requires { length words.now ≤ 2 ^ 20 }
    ensures { result ≡ count_below (has words.now) (64 * length words.now) }
{
    let mut total = 0;
    for word in words {
        total += word.count_ones();
    }
    total
}

pub(crate) fn next_from(words: &[u64], i: u32) -> Option<u32>
    requires { length words.now ≤ 2 ^ 20 }
    ensures found { IfSome result (IsLeastFrom (has words.now) i) }
    ensures none { IfNone result ((k : ℕ) → i ≤ k → has words.now k ≡ false) }
{
    let start = (i / 64) as usize;
    for at in start..words.len() {
        let first = i.saturating_sub(64 * (at as u32));
        if let Some(k) = lowest_from(words[at], first) {
            return Some(64 * (at as u32) + k);
        }
    }
    None
}
