// Numbers and modes, from their digits.
ghost use Rattle.std.specs.Prelude.{◌≡◌, ℕ, ◌^◌, ◌<◌, ◌≤◌, Option, length, IfSome};
ghost use Rattle.text.specs.Bytes.{digit, octal, written, number, mode};
ghost use Rattle.text.specs.PartLaws.{DigitsValue};

// Two functions for the two bases: the project has a byte matched as a char against a literal range.
fn digit_of(b: u8) -> Option<u8>
    ensures { result ≡ digit b }
{
    match b as char {
        '0'..='9' => Some(b - 48),
        _ => None,
    }
}

fn octal_of(b: u8) -> Option<u8>
    ensures { result ≡ octal b }
{
    match b as char {
        '0'..='7' => Some(b - 48),
        _ => None,
    }
}

// The number that digits write in a base, if each byte is one.
fn written_in<F: Fn(u8) -> Option<u8>>(s: &[u8], base: u64, digit: F) -> Option<u64>
    requires callable { F.IsAlwaysCallable digit }
    requires small { (b r : _) → F.post digit b r → IfSome r (λ v. v < base) }
    requires fits { base ^ length s.now ≤ 2 ^ 64 }
    ensures value { (d : ℕ → Option ℕ) → ((b r : _) → F.post digit b r → r ≡ d b) → result ≡ written d base 0 s.now }
    ensures below { IfSome result (λ n. n < base ^ length s.now) }
{
    let mut n = 0;
    for b in s {
        let v = digit(*b)?;
        n = base * n + u64::from(v);
    }
    Some(n)
}

// A number from 0 to 4,294,967,294 in 1 to 10 digits.
pub fn number_of(s: &[u8]) -> Option<u32>
    ensures value { result ≡ number s.now }
    ensures digits { IfSome result (DigitsValue 10 57 s.now) }
{
    if s.is_empty() || s.len() > 10 {
        return None;
    }
    match u32::try_from(written_in(s, 10, digit_of)?) {
        Ok(n) if n < u32::MAX => Some(n),
        _ => None,
    }
}

// A mode in 1 to 4 octal digits.
pub fn mode_of(s: &[u8]) -> Option<u16>
    ensures value { result ≡ mode s.now }
    ensures digits { IfSome result (DigitsValue 8 55 s.now) }
{
    if s.is_empty() || s.len() > 4 {
        return None;
    }
    let n = written_in(s, 8, octal_of)?;
    Some(n as u16)
}
