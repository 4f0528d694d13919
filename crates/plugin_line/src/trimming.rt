// Taking blanks off.
ghost use Rattle.std.specs.Prelude.{◌≡◌, ◌-◌, ◌≤◌, length, take, drop};
ghost use Rattle.std.specs.List.{prefix_len, suffix_len};
ghost use Rattle.plugin_line.specs.Output.{is_blank, trimmed};

/// The text without the blanks at its ends.
pub fn trim_blanks(text: &str) -> &str
    ensures { result.now ≡ trimmed text.now }
{
    trim_end(trim_start(text))
}

fn trim_start(text: &str) -> &str
    ensures { result.now ≡ drop (prefix_len is_blank text.now) text.now }
{
    let from = blanks_in_front(text.as_bytes());
    &text[from..]
}

fn trim_end(text: &str) -> &str
    ensures { result.now ≡ take (length text.now - suffix_len is_blank text.now) text.now }
{
    let to = end_without_blanks(text.as_bytes());
    &text[..to]
}

fn blanks_in_front(bytes: &[u8]) -> usize
    ensures { result ≡ prefix_len is_blank bytes.now }
{
    for (i, byte) in bytes.iter().enumerate() {
        if !is_blank_byte(*byte) {
            return i;
        }
    }
    bytes.len()
}

fn end_without_blanks(bytes: &[u8]) -> usize
    ensures { result ≡ length bytes.now - suffix_len is_blank bytes.now }
{
    let mut end = bytes.len();
    while end > 0 && is_blank_byte(bytes[end - 1]) {
        end -= 1;
    }
    end
}

fn is_blank_byte(byte: u8) -> bool
    ensures { result ≡ is_blank byte }
{
    matches!(byte, b' ' | b'\t' | b'\r')
}
