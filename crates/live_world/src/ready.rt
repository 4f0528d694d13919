// Waiting for what can be read.
ghost use Rattle.std.specs.Prelude.{◌≡◌, ◌≢◌, ◌↔◌, pos, ◌<ℤ◌, IsTrue, IfOk, IfErr};

use libc::EINTR;
use libc::net::{POLLIN, poll};
use libc::types::pollfd;
use std::os::fd::RawFd;
use std::time::Duration;

/// The system doesn't say whether a read will wait, and no signal was the cause.
#[derive(Clone, Copy, Debug, PartialEq, Eq)]
pub struct PollFailed;

/// Whether a read of a descriptor will not wait, which it is asked for so long at most. At the end of what can be read, and
/// where a read fails, it will not wait either. If a signal ends the asking, nothing has come so far.
pub fn is_ready(fd: RawFd, most: Duration) -> Result<bool, PollFailed> {
    let mut asked = [pollfd {
        fd,
        events: POLLIN,
        revents: 0,
    }];
    let count = poll(&mut asked, millis(most));
    let error = if count < 0 { os::errno() } else { 0 };
    has_come(count, error)
}

/// What is said by the answer of `poll`: how many descriptors are ready, or a number below 0 with an error.
fn has_come(count: i32, error: i32) -> Result<bool, PollFailed>
    ensures ready { IfOk result (λ it. IsTrue it ↔ (pos 0 <ℤ count)) }
    ensures failed { IfErr result (λ _. (count <ℤ pos 0) × (error ≢ pos 4)) }
    ensures fault { IfOk result (λ _. (count <ℤ pos 0) → error ≡ pos 4) }
{
    if count < 0 && error != EINTR {
        Err(PollFailed)
    } else {
        Ok(count > 0)
    }
}

/// Whole milliseconds, rounded up, a day at most.
fn millis(most: Duration) -> i32 {
    let nanos = most.as_nanos().min(86_400_000_000_000);
    nanos.div_ceil(1_000_000) as i32
}
