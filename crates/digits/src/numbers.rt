// Digits and the numbers that they write.
ghost use Rattle.std.specs.Prelude.{◌≡◌, ◌<◌, IfSome, drop, unwrap_or};
ghost use Rattle.digits.specs.Digits.{digits, value};

// The number whose digits begin at a place; the largest there is where it is larger.
pub fn decimal(text: &[u8], at: usize) -> u64
    ensures { result ≡ digits 0 (drop at text.now) }
{
    let mut v: u64 = 0;
    for b in &text[at.min(text.len())..] {
        if !b.is_ascii_digit() {
            return v;
        }
        v = v.saturating_mul(10).saturating_add(u64::from(*b - b'0'));
    }
    v
}

// v, and the largest there is where it is larger.
pub fn above(v: u64) -> i64 {
    i64::try_from(v).unwrap_or(i64::MAX)
}

// -v, and the smallest there is where it is smaller.
pub fn below(v: u64) -> i64 {
    i64::try_from(v).map_or(i64::MIN, |v| -v)
}

#[tactic(auto, unfolding(crate::specs::Digits::value))]
fn digit(b: u8) -> Option<u8>
    ensures value { unwrap_or result 16 ≡ value b }
    ensures below { IfSome result (λ d. d < 16) }
{
    match b {
        b'0'..=b'9' => Some(b - b'0'),
        b'A'..=b'F' => Some(b - b'A' + 10),
        _ => None,
    }
}

pub fn both(a: u8, b: u8) -> bool {
    digit(a).is_some() && digit(b).is_some()
}

pub fn pair(a: u8, b: u8) -> u8 {
    digit(a).unwrap_or(0) * 16 + digit(b).unwrap_or(0)
}
