// Answers what the target conditions of Cargo manifests mean.
#![tactic(auto)]

use key_answers::answer::{Answer, Status};
use manifest_commands::run;
use std::io::{self, ErrorKind, IsTerminal};
use std::process::ExitCode;

/// The first text in the parentheses after the version. In an unproved build it is `unproved build, `.
const BUILD: &str = "";

/// Prints an answer, and returns its exit status.
fn print_answer<R: Print + Eprint>(rt: &R, answer: Answer) -> io::Result<Status> {
    if let Err(error) = rt.print(&answer.output) {
        if error.kind() == ErrorKind::BrokenPipe {
            return Ok(Status::Unusable);
        }
        return Err(error);
    }
    rt.eprint(&answer.errors)?;
    Ok(answer.status)
}

fn main(rt: HostRuntime) -> ExitCode {
    let on_terminal = rt.stdout().is_terminal();
    let printed = match run(&rt, BUILD, on_terminal) {
        Ok(answer) => print_answer(&rt, answer),
        Err(refused) => Err(io::Error::from(refused)),
    };
    ExitCode::from(match printed {
        Ok(status) => status.code(),
        Err(error) => {
            let _ = rt.eprintln(format_args!("error: {error}"));
            Status::Unusable.code()
        }
    })
}
