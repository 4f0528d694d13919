// Numbers of a query.
ghost use Rattle.std.specs.Prelude.{◌≡◌, ◌<◌, ◌^◌, nat_le, Some, None, if◌then◌else◌};
ghost use Rattle.std.specs.Char.{is_ascii_digit};
ghost use Rattle.std.specs.List.{list_all};
ghost use Rattle.event_text.specs.Numbers.{is_number as number_test};
ghost use Rattle.site_query.specs.Reading.{number_read};

/// A number has at most so many digits.
const MOST_DIGITS: usize = 19;

/// The number that a text stands for, if it is digits alone, 1 to 19, and the number is at most so great.
pub(crate) fn read_number(text: &str, most: u64) -> Option<u64>
    ensures { result ≡ number_read most text.now }
{
    if !is_number(text) {
        return None;
    }
    match text.parse::<u64>() {
        Ok(number) => at_most(number, most),
        Err(_) => None,
    }
}

/// Whether a text is digits alone, 1 to 19.
fn is_number(text: &str) -> bool
    ensures { result ≡ number_test 19 text.now }
{
    !text.is_empty() && text.len() <= MOST_DIGITS && are_digits(text.as_bytes())
}

fn are_digits(bytes: &[u8]) -> bool
    ensures { result ≡ list_all is_ascii_digit bytes.now }
{
    bytes.iter().all(|b| b.is_ascii_digit())
}

fn at_most(number: u64, most: u64) -> Option<u64>
    ensures { result ≡ (if nat_le number most then Some number else None) }
{
    if number <= most { Some(number) } else { None }
}
