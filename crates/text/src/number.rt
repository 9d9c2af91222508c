// Decimal numbers of 64 bits.
ghost use Rattle.std.specs.Prelude.{◌≡◌};
ghost use Rattle.text.specs.Numbers.{digit_after, number_at};

// The number n with one digit after it; absent for another byte, or past 64 bits.
fn with_digit(n: u64, b: u8) -> Option<u64>
    ensures { result ≡ digit_after n b }
{
    if !b.is_ascii_digit() {
        return None;
    }
    let tens = n.checked_mul(10)?;
    tens.checked_add(u64::from(b - b'0'))
}

// The number that the digits spell; absent for no digit, another byte, or a number past 64 bits.
pub fn number_of(text: &[u8]) -> Option<u64>
    ensures { result ≡ number_at text.now }
{
    if text.is_empty() {
        return None;
    }
    let mut n = 0;
    for b in text {
        n = with_digit(n, *b)?;
    }
    Some(n)
}
