//! The program: it runs the command of its words over the desk of the system, prints the text of a
//! status other than done on standard error, and ends with the status's code.
#![tactic(auto)]

use std::process::ExitCode;
use std::{env, io};
use view_commands::{Status, code, run};
use view_ends::{HostDesk, NoBeside};

fn main(rt: HostRuntime) -> ExitCode {
    let status = match words_and_runtime(&rt) {
        Ok((words, own)) => {
            let mut desk = HostDesk::new(own, rt.alloc());
            run(rt.alloc(), &rt, &words, &mut desk, &NoBeside).status
        }
        Err(status) => status,
    };
    if status != Status::Done {
        let _ = eprintln!(rt; "{status}");
    }
    ExitCode::from(code(&status))
}

/// The words of the command line, and a runtime for the desk. Words that are no text are answered
/// as if the first were refused.
fn words_and_runtime(rt: &HostRuntime) -> Result<(Vec<String>, HostRuntime), Status> {
    let words = match env::args(rt) {
        Ok(args) => match args.skip(1).collect(rt.alloc()) {
            Ok(words) => words,
            Err(_) => return Err(Status::Memory),
        },
        Err(error) => return Err(unread(&error)),
    };
    match rt.clone() {
        Ok(own) => Ok((words, own)),
        Err(_) => Err(Status::Memory),
    }
}

/// How a run ends whose words were not read.
fn unread(error: &io::Error) -> Status {
    match error.kind() {
        io::ErrorKind::OutOfMemory => Status::Memory,
        _ => Status::Words { at: 0 },
    }
}
