// A check program, from its start to its report.
ghost use Rattle.std.specs.Prelude.{◌≡◌, ◌≤◌, IfOk, IfSome, length};

use crate::exit::{UNKNOWN, report_status};
use crate::kept::{Kept, MOST_KEPT};
use crate::ready::{PollFailed, is_ready};
use site_base::{OutOfMemory, Text};
use site_edge::{Order, Report};
use std::alloc::Global;
use std::io::{ErrorKind, PipeReader, Read};
use std::os::fd::AsRawFd;
use std::os::unix::process::ExitStatusExt;
use std::process::{Child, Command, ExitStatus, Stdio};
use std::sync::atomic::{AtomicBool, Ordering};
use std::time::Duration;
use std::{env, io, mem, thread};

/// So many seconds a program's output is waited for before it is looked whether the program itself has ended.
const PATIENCE: u64 = 1;

/// The system has no descriptor left (Linux's number of this error).
const ENFILE: i32 = 23;

/// The variable that says of `LD_PRELOAD` that it is there for this program alone.
const ALLOCATOR: &str = "ICINGA_SITE_ALLOCATOR";

/// A program that was started, with what it writes.
#[derive(Drop)]
struct Program {
    child: Child,
    output: PipeReader,
}

/// Runs the program of an order to its end, and reports it.
///
/// Its standard input is empty. Its output is what it writes to standard output and to standard error, in the order in which
/// it comes, of which the first 65,536 bytes are kept; the rest is read too, so that the program ends as it would. The
/// report comes once the program has ended and all that it wrote was read: what it left running in the background is not
/// waited for. While there is no room for it, the flag `waits` is set.
pub fn report_of(rt: &HostRuntime, order: &Order, waits: &AtomicBool) -> Result<Report, OutOfMemory>
    ensures { IfOk result (λ report. report.order ≡ order.now.number) }
{
    let alloc = rt.alloc();
    let mut output = Kept::new(alloc);
    let status = match started_with_room(rt, order.argv.as_slice(), waits) {
        Ok(program) => ended(rt, program, &mut output)?,
        Err(error) => {
            let message = format!(in alloc; "can't be run: {error}")?;
            output.extend(message.as_bytes())?;
            UNKNOWN
        }
    };
    Ok(Report {
        order: order.number,
        status,
        output: output.into_blob(),
    })
}

/// Starts a program. If there is no room for one more, it is tried again until there is: that is no fault of the program.
fn started_with_room(rt: &HostRuntime, argv: &[Text], waits: &AtomicBool) -> io::Result<Program> {
    for _ in 0..u64::MAX {
        match started(rt, argv) {
            Err(error) if wants_room(&error) => {
                waits.store(true, Ordering::SeqCst);
                thread::sleep(rt, Duration::from_secs(PATIENCE));
            }
            answer => {
                waits.store(false, Ordering::SeqCst);
                return answer;
            }
        }
    }
    started(rt, argv)
}

/// Whether a start failed for want of descriptors, processes or memory.
fn wants_room(error: &io::Error) -> bool {
    match error.raw_os_error() {
        Some(code) => [libc::EMFILE, ENFILE, libc::EAGAIN, libc::ENOMEM].contains(&code),
        None => error.kind() == ErrorKind::OutOfMemory,
    }
}

/// Starts a program. A name without a slash is looked for in the folders of `PATH`. The allocator that this program runs under, if one was
/// named for it, isn't handed on.
fn started(rt: &HostRuntime, argv: &[Text]) -> io::Result<Program> {
    let Some((name, arguments)) = argv.split_first() else {
        return Err(io::Error::from(ErrorKind::InvalidInput));
    };
    let mut command = Command::new(rt.alloc(), name.as_str())?;
    for argument in arguments {
        let _ = command.arg(argument.as_str())?;
    }
    if env::var(rt, ALLOCATOR).is_ok() {
        let _ = command.env_remove("LD_PRELOAD")?;
        let _ = command.env_remove(ALLOCATOR)?;
    }
    let (output, theirs) = io::pipe(rt)?;
    let errors = theirs.try_clone()?;
    let child = command
        .stdin(Stdio::null())
        .stdout(theirs)
        .stderr(errors)
        .spawn(rt)?;
    Ok(Program { child, output })
}

/// Waits until a program has ended. Of want of memory it is told only then, so that no child is left behind.
fn ended(rt: &HostRuntime, program: Program, kept: &mut Kept) -> Result<u8, OutOfMemory> {
    let alloc = rt.alloc();
    let Program {
        mut child,
        mut output,
    } = program;
    let read = read_output(rt, &mut child, &mut output, kept);
    drop(output);
    let status = child.wait();
    read?;
    match status {
        Ok(status) => {
            note_signal(alloc, status, kept)?;
            Ok(report_status(status))
        }
        Err(error) => {
            let note = format!(in alloc; "its end can't be known: {error}\n")?;
            put_before(alloc, note.as_bytes(), kept)?;
            Ok(UNKNOWN)
        }
    }
}

/// Reads a program's output to its end; where something else holds it open once the program has ended, all that the
/// program wrote, which is no more than a pipe takes.
fn read_output(
    rt: &HostRuntime,
    child: &mut Child,
    output: &mut PipeReader,
    kept: &mut Kept,
) -> Result<(), OutOfMemory> {
    let mut chunk = [0u8; 8192];
    let mut left = MOST_KEPT;
    for _ in 0..u64::MAX {
        let has_ended = !matches!(child.try_wait(), Ok(None));
        let patience = Duration::from_secs(if has_ended { 0 } else { PATIENCE });
        if has_come(rt, output, patience) {
            let Some(count) = read_some(output, &mut chunk) else {
                break;
            };
            kept.extend(&chunk[..count])?;
            if has_ended {
                left = left.saturating_sub(count);
            }
        } else if has_ended {
            break;
        }
        if left == 0 {
            break;
        }
    }
    Ok(())
}

/// Whether a read of a program's output will not wait, which is waited for so long at most. If the system can't be asked, nothing has come.
fn has_come(rt: &HostRuntime, output: &PipeReader, most: Duration) -> bool {
    match is_ready(output.as_raw_fd(), most) {
        Ok(is_ready) => is_ready,
        Err(PollFailed) => {
            thread::sleep(rt, most);
            false
        }
    }
}

/// Reads some bytes; `None` at the end, and where a read fails.
fn read_some(output: &mut PipeReader, chunk: &mut [u8]) -> Option<usize>
    ensures within { IfSome result (λ count. count ≤ length chunk.old) }
    ensures same { length chunk.new ≡ length chunk.old }
{
    match output.read(chunk) {
        Ok(0) => None,
        Ok(count) => Some(count),
        Err(error) if error.kind() == ErrorKind::Interrupted => Some(0),
        Err(_) => None,
    }
}

/// Puts a note before a program's output, whose first line it is then.
fn put_before(alloc: Global, note: &[u8], kept: &mut Kept) -> Result<(), OutOfMemory> {
    let written = mem::replace(kept, Kept::new(alloc)).into_blob();
    kept.extend(note)?;
    kept.extend(written.as_slice())
}

/// Adds to a program's output by which signal it was ended, if one did.
fn note_signal(alloc: Global, status: ExitStatus, kept: &mut Kept) -> Result<(), OutOfMemory> {
    if let Some(signal) = status.signal() {
        let note = format!(in alloc; "<Terminated by signal {signal}.>")?;
        kept.extend(note.as_bytes())?;
    }
    Ok(())
}
