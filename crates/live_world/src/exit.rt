// What a program's end means for its check.
ghost use Rattle.std.specs.Prelude.{◌≡◌, MatchOption, pos};
ghost use Rattle.std.specs.Process.{exit_code};

use std::process::ExitStatus;

/// The status of a check that tells nothing: its program can't be run, or a signal ended it. It is a plugin's UNKNOWN.
pub const UNKNOWN: u8 = 3;

/// A program's exit status, and `UNKNOWN` where a signal ended it.
pub fn report_status(status: ExitStatus) -> u8
    ensures { MatchOption (exit_code status) (result ≡ UNKNOWN) (λ code. pos result ≡ code) }
{
    match status.code() {
        Some(code) => u8::try_from(code).unwrap_or(UNKNOWN),
        None => UNKNOWN,
    }
}
