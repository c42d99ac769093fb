//! What words spell: decimal numbers, and bytes in hexadecimal digits.
ghost use Rattle.std.specs.Prelude.{◌≡◌, ◌+◌, ◌-◌, ◌*◌, ◌≤◌, if◌then◌else◌, IfSome};
ghost use Rattle.std.specs.List.{list_all};
ghost use Rattle.sg_base.specs.Words.{is_digit, has_needless_zero, value, number, up_to, hex_bytes};

/// A number up to `most`, in decimal digits without a sign or a needless leading zero; `None` for any other word. It takes no memory.
#[tactic(auto, unfolding(crate::specs::Words::number))]
pub fn read_number(word: &[u8], most: u64) -> Option<u64>
    ensures value { result ≡ number most word.now }
    ensures within { IfSome result (λ n. n ≤ most) }
{
    if word.is_empty() {
        return None;
    }
    if has_needless_zero(word) {
        return None;
    }
    read_digits(word, most)
}

fn has_needless_zero(word: &[u8]) -> bool
    ensures { result ≡ has_needless_zero word.now }
{
    matches!(word, [b'0', _, ..])
}

// The number that digits spell, if all are digits and it is at most `most`.
fn read_digits(word: &[u8], most: u64) -> Option<u64>
    ensures value { result ≡ (if list_all is_digit word.now then up_to most (value word.now) else None) }
    ensures within { IfSome result (λ n. n ≤ most) }
{
    let mut value = 0u64;
    'digits: for digit in word {
        if !digit.is_ascii_digit() {
            return None;
        }
        value = next_value(value, *digit, most)?;
    }
    Some(value)
}

// The number `value` with one more digit, if that is at most `most`.
fn next_value(value: u64, digit: u8, most: u64) -> Option<u64>
    requires { 48 ≤ digit }
    ensures { result ≡ up_to most (value * 10 + (digit - 48)) }
{
    let next = value.checked_mul(10)?.checked_add(u64::from(digit - b'0'))?;
    if next > most {
        return None;
    }
    Some(next)
}

/// The `N` bytes that hexadecimal digits of either case spell, two for each; `None` for any other word. It takes no memory.
#[tactic(auto, unfolding(crate::specs::Words::hex_bytes))]
pub fn read_hex<const N: usize>(word: &[u8]) -> Option<[u8; N]>
    ensures { result ≡ hex_bytes N word.now }
{
    let mut bytes = [0u8; N];
    match hex::decode_to_slice(word, &mut bytes) {
        Ok(()) => Some(bytes),
        Err(_) => None,
    }
}
