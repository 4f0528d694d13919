// Digits, and times of a clock.
ghost use Rattle.std.specs.Prelude.{◌≡◌, ◌+◌, ◌<◌, ◌≤◌, length, IfSome};
ghost use Rattle.time_range.specs.Clock.{number_of, minute_of, minute_at};

/// The number that two digits make.
pub fn number_of(tens: u8, ones: u8) -> Option<u8>
    ensures value { result ≡ number_of tens ones }
    ensures below { IfSome result (λ n. n < 100) }
{
    if tens.is_ascii_digit() && ones.is_ascii_digit() {
        Some((tens - b'0') * 10 + (ones - b'0'))
    } else {
        None
    }
}

/// The minute of the day that the five bytes from this place on name, as `HH:MM`.
#[tactic(auto, unfolding(crate::specs::Clock::minute_at))]
pub fn minute_at(text: &[u8], at: usize) -> Option<u32>
    requires { at + 5 ≤ length text.now }
    ensures value { result ≡ minute_at text.now at }
    ensures below { IfSome result (λ n. n < 6000) }
{
    if text[at + 2] != b':' {
        return None;
    }
    let hour = number_of(text[at], text[at + 1])?;
    let minute = number_of(text[at + 3], text[at + 4])?;
    minute_of(hour, minute)
}

/// So many minutes after so many hours, where they make no hour more.
fn minute_of(hour: u8, minute: u8) -> Option<u32>
    requires { hour < 100 }
    ensures value { result ≡ minute_of hour minute }
    ensures below { IfSome result (λ n. n < 6000) }
{
    if minute < 60 {
        Some(u32::from(hour) * 60 + u32::from(minute))
    } else {
        None
    }
}
