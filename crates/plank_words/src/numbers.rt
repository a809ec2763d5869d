ghost use Rattle.std.specs.Prelude.{◌≡◌, ◌≤◌, ◌*◌, IfSome};
ghost use Rattle.std.specs.List.{list_all};
ghost use Rattle.std.specs.Char.{is_ascii_digit};
ghost use Rattle.plank_words.specs.Numbers.{is_number, number_in, number_between};

// Whether a text has no other bytes than digits.
fn all_digits(text: &[u8]) -> bool
    ensures { result ≡ list_all is_ascii_digit text.now }
{
    text.iter().all(|byte: &u8| byte.is_ascii_digit())
}

// Whether a text is one to ten digits.
fn is_number(text: &[u8]) -> bool
    ensures { result ≡ is_number text.now }
{
    if text.is_empty() {
        return false;
    }
    if text.len() > 10 {
        return false;
    }
    all_digits(text)
}

// The number that a text says.
fn number_in(text: &str) -> Option<u64>
    ensures { result ≡ number_in text.now }
{
    if !is_number(text.as_bytes()) {
        return None;
    }
    text.parse::<u64>().ok()
}

/// The number that a text says, if it is in the range.
pub fn number_between(low: u32, high: u32, text: &str) -> Option<u32>
    ensures number { result ≡ number_between low high text.now }
    ensures range { IfSome result (λ n. (low ≤ n) × (n ≤ high)) }
{
    let number = number_in(text)?;
    if number < low as u64 {
        return None;
    }
    if number > high as u64 {
        return None;
    }
    Some(number as u32)
}
