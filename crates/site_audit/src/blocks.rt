// The lines of a log, and its blocks.
ghost use Rattle.std.specs.Prelude.{◌≡◌, ◌<◌, ◌≤◌, ◌==◌, ◌∷◌, ◌++◌, drop, length, not};
ghost use Rattle.std.specs.List.{prefix_len};
ghost use Rattle.site_audit.specs.Blocks.{begins_turn as begins, blocks_of, goes_on, line_len as len_of_line, lines_of};

/// The first block of a log: its first line, and the lines after it up to the next one that begins a turn; and what follows the block.
pub(crate) fn cut_block(log: &[u8]) -> (&[u8], &[u8])
    requires { 0 < length log.now }
    ensures blocks { blocks_of (lines_of log.now) ≡ lines_of result.0.now ∷ blocks_of (lines_of result.1.now) }
    ensures whole { log.now ≡ result.0.now ++ result.1.now }
    ensures shorter { length result.1.now < length log.now }
{
    let behind = from_turn(cut_line(log).1);
    log.split_at(log.len() - behind.len())
}

/// What stands from the first line on that begins a turn.
fn from_turn(bytes: &[u8]) -> &[u8]
    ensures lines { lines_of result.now ≡ drop (prefix_len goes_on (lines_of bytes.now)) (lines_of bytes.now) }
    ensures within { length result.now ≤ length bytes.now }
{
    let mut rest = bytes;
    while !rest.is_empty() {
        let (line, behind) = cut_line(rest);
        if begins_turn(line) {
            return rest;
        }
        rest = behind;
    }
    rest
}

/// Whether a line begins a turn.
pub(crate) fn begins_turn(line: &[u8]) -> bool
    ensures { result ≡ begins line.now }
{
    line.starts_with(b"turn ")
}

/// The first line of some bytes with its newline, which the last line may lack, and what follows it.
pub(crate) fn cut_line(bytes: &[u8]) -> (&[u8], &[u8])
    requires { 0 < length bytes.now }
    ensures lines { lines_of bytes.now ≡ result.0.now ∷ lines_of result.1.now }
    ensures whole { bytes.now ≡ result.0.now ++ result.1.now }
    ensures shorter { length result.1.now < length bytes.now }
{
    bytes.split_at(line_len(bytes))
}

/// How many bytes the first line has.
fn line_len(bytes: &[u8]) -> usize
    ensures { result ≡ len_of_line bytes.now }
{
    let inner = inner_len(bytes);
    if inner < bytes.len() {
        inner + 1
    } else {
        inner
    }
}

/// How many bytes stand before the first newline.
fn inner_len(bytes: &[u8]) -> usize
    ensures { result ≡ prefix_len (λ b. not (b == 10)) bytes.now }
{
    bytes.iter().take_while(|b| **b != b'\n').count()
}
