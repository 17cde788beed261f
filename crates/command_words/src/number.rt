//! The numbers that values write.
ghost use Rattle.std.specs.Prelude.{◌≡◌, ◌≤◌, ◌<◌, ◌^◌, IfSome};
ghost use Rattle.command_words.specs.Value.{number};

/// The most digits of a number.
const MAX_DIGITS: usize = 10;

/// The number from `low` to `high` that a value writes in 1 to 10 decimal digits. Leading zeros are allowed.
#[tactic(auto, unfolding(crate::specs::Value::number))]
pub(crate) fn number(low: u64, high: u64, value: &str) -> Option<u64>
    requires { high < 2 ^ 32 }
    ensures value { result ≡ number low high value.now }
    ensures range { IfSome result (λ n. (low ≤ n) × (n ≤ high)) }
{
    let digits = value.as_bytes();
    if digits.is_empty() || digits.len() > MAX_DIGITS {
        return None;
    }
    let mut n: u64 = 0;
    for b in digits {
        if !b.is_ascii_digit() {
            return None;
        }
        n = n * 10 + u64::from(*b - b'0');
        if n > high {
            return None;
        }
    }
    if low <= n { Some(n) } else { None }
}
