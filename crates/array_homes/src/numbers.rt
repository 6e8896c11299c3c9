// Numbers in decimal, read back.
ghost use Rattle.std.specs.Prelude.{◌≡◌, ◌≢◌, ◌≤◌, ◌<◌, ◌↔◌, ◌-◌, ◌*◌, ◌^◌, ℕ, IfSome, IsTrue, None, decimal, false};
ghost use Rattle.array_homes.specs.Names.{IsStart, has_other_front};

use cells::LARGEST_SIZE;

/// The number that these digits are, written without a needless zero; none at 2^64 and above.
pub(crate) fn number(digits: &[u8]) -> Option<u64>
    ensures some { IfSome result (λ n. (n < 2 ^ 64) × (decimal n ≡ digits.now)) }
    ensures none { result ≡ None → (n : ℕ) → n < 2 ^ 64 → decimal n ≢ digits.now }
{
    if has_other_front(digits) {
        return None;
    }
    match str::from_utf8(digits) {
        Ok(text) => parsed(text),
        Err(_) => None,
    }
}

fn parsed(text: &str) -> Option<u64>
    requires { has_other_front text.now ≡ false }
    ensures some { IfSome result (λ n. (n < 2 ^ 64) × (decimal n ≡ text.now)) }
    ensures none { result ≡ None → (n : ℕ) → n < 2 ^ 64 → decimal n ≢ text.now }
{
    match text.parse::<u64>() {
        Ok(n) => Some(n),
        Err(_) => None,
    }
}

// The digits begin with a plus or with a needless zero.
fn has_other_front(digits: &[u8]) -> bool
    ensures { result ≡ has_other_front digits.now }
{
    match digits {
        [] => false,
        [first] => *first == b'+',
        [first, _, ..] => *first == b'+' || *first == b'0',
    }
}

/// Whether the digits are those of an index at which a chunk of this size begins at a finite index.
pub(crate) fn is_start(size: u64, digits: &[u8]) -> bool
    requires { 1 ≤ size }
    ensures { IsTrue result ↔ IsStart size digits.now }
{
    match number(digits) {
        Some(c) => begins_finite(size, c),
        None => false,
    }
}

fn begins_finite(size: u64, c: u64) -> bool
    ensures { IsTrue result ↔ (c * size ≤ 2 ^ 62 - 2) }
{
    match c.checked_mul(size) {
        Some(start) => start <= LARGEST_SIZE,
        None => false,
    }
}
