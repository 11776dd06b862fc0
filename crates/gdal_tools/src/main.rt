//! The program: it gathers its words, works on the system's files, and ends with the status's number.
#![tactic(auto)]

use rv_outside::{HostFolder, StdSink};
use std::alloc::Global;
use std::process::ExitCode;
use std::rt::Env;
use std::{env, io};
use tool_run::{Status, Words, run};

// What the program ends with where a word isn't UTF-8. No status has this number.
const NOT_TEXT: u8 = 9;

// The words after the program's name, or what the program ends with where they can't be had.
fn gathered(rt: &(impl Env + AllocGlobal), alloc: Global) -> Result<Words, u8> {
    let args = env::args(rt).map_err(exit_of)?;
    let mut words = Words::new(alloc);
    for word in args.skip(1) {
        if words.push(&word).is_err() {
            return Err(Status::NoMemory.number());
        }
    }
    Ok(words)
}

fn exit_of(error: io::Error) -> u8 {
    match error.kind() {
        io::ErrorKind::OutOfMemory => Status::NoMemory.number(),
        _ => NOT_TEXT,
    }
}

fn main(rt: HostRuntime) -> ExitCode {
    let alloc = rt.alloc();
    let words = match gathered(&rt, alloc) {
        Ok(words) => words,
        Err(exit) => return ExitCode::from(exit),
    };
    let mut folder = HostFolder::new(&rt, alloc);
    let mut out = StdSink::new(rt.stdout());
    let mut err = StdSink::new(rt.stderr());
    let status = run(alloc, &words, &mut folder, &mut out, &mut err);
    ExitCode::from(status.number())
}
