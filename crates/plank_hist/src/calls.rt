ghost use Rattle.std.specs.Prelude.{◌≡◌, ℤ, Bool};
ghost use Rattle.std.specs.Option.{unwrap_or};
ghost use Rattle.plank_hist.specs.Sets.{set_of_keys, holds_after, is_legal_of_set};

use plank_base::Op;

/// A finished call of a set: what was called, at which key, and what it answered.
#[derive(Clone, Copy, Debug, PartialEq, Eq)]
pub struct SeqCall {
    /// What was called.
    pub op: Op,
    /// The key that the call was about.
    pub key: i64,
    /// What the call answered.
    pub answer: bool,
}

/// Whether the calls, one after another, are legal for a set that starts empty (Herlihy and Wing 1990).
///
/// It takes no memory, and at most as many steps as there are pairs of calls.
pub fn is_legal(calls: &[SeqCall]) -> bool
    ensures { result ≡ is_legal_of_set calls.now }
{
    for (place, call) in calls.iter().enumerate() {
        if !is_allowed(&calls[..place], *call) {
            return false;
        }
    }
    true
}

// Whether the call may answer as it did after the earlier ones.
fn is_allowed(earlier: &[SeqCall], call: SeqCall) -> bool
    ensures { result ≡ set_of_keys.allows (holds_after earlier.now) (call.op, call.key) call.answer }
{
    let present = is_present(earlier, call.key);
    match call.op {
        Op::Contains => call.answer == present,
        Op::Insert => call.answer != present,
        Op::Delete => call.answer == present,
    }
}

// Whether the key is present after the calls: the last one that changed it decides.
fn is_present(mut calls: &[SeqCall], key: i64) -> bool
    ensures { result ≡ holds_after calls.now key }
{
    while let [earlier @ .., last] = calls {
        if let Some(present) = settled(*last, key) {
            return present;
        }
        calls = earlier;
    }
    false
}

// Whether the key is present after the call, where that does not depend on what was before it.
fn settled(call: SeqCall, key: i64) -> Option<bool>
    ensures { (holds : ℤ → Bool)
        → set_of_keys.after holds (call.op, call.key) key ≡ unwrap_or result (holds key) }
{
    if call.key != key {
        return None;
    }
    match call.op {
        Op::Contains => None,
        Op::Insert => Some(true),
        Op::Delete => Some(false),
    }
}
