// The program: the command line, real files and standard output, around the tool.
#![tactic(auto)]

use std::process::ExitCode;
use std::{env, io, rt};
use tcd_driver::tool;
use tcd_reading::Status;
use tcd_real::{RealFiles, Stdout};

/// Runs the tool on the program's arguments, and exits with the number of its status. Arguments
/// that can't be read are a fault, or out of memory.
fn main(rt: HostRuntime) -> ExitCode {
    match program_args(&rt) {
        Ok(words) => ExitCode::from(tool_exit_status(&rt, &words)),
        Err(e) => match e.kind() {
            io::ErrorKind::OutOfMemory => ExitCode::from(u8::from(Status::NoMemory)),
            _ => ExitCode::from(u8::from(Status::Fault)),
        },
    }
}

// Returns the program's arguments without the program's own name. An error means that they can't be
// read, or that memory ran out.
fn program_args<R: env::Env + AllocGlobal>(rt: &R) -> io::Result<Vec<String>> {
    let mut words = Vec::new(rt.alloc());
    for (i, word) in env::args(rt)?.enumerate() {
        if i > 0 {
            words.push(word)?;
        }
    }
    Ok(words)
}

// Runs the tool on these arguments, over the system's files and standard output, and returns the
// exit status.
fn tool_exit_status<R: rt::Files + Print + AllocGlobal>(rt: &R, words: &[String]) -> u8 {
    let mut files = RealFiles { rt, failed: 0 };
    let mut out = Stdout { rt, failed: 0 };
    u8::from(tool(rt.alloc(), words, &mut files, &mut out))
}
