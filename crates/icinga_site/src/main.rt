//! The program: it reads the words of a command line, does what they ask for and ends with a status.
#![tactic(auto)]

mod command_line;
mod complaint;
mod counted;
mod heard;
mod said;
mod watched;

use crate::said::say;
use site_program::Status;
use std::process::ExitCode;

fn main(rt: HostRuntime) -> ExitCode {
    let status = match rt.clone() {
        Ok(threads) => command_line::run(&rt, &rt, threads),
        Err(_) => Status::OutOfMemory,
    };
    if status.number() > 1 {
        say(&rt, "", status, "");
    }
    ExitCode::from(status.number())
}
