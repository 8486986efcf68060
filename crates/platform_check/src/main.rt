// Reads a condition of Cargo's dependency tables, a target's name and its facts, and prints whether the condition is
// true on the target.
#![tactic(auto)]

use platform_answers::{Outcome, counted, run};
use std::process::ExitCode;

fn main(rt: HostRuntime) -> ExitCode {
    let mut input = counted::Input::new(rt.stdin());
    let mut output = counted::Output::new(rt.stdout());
    ExitCode::from(match run(rt.alloc(), &mut input, &mut output) {
        Ok(Outcome::Match) => 0,
        Ok(Outcome::NoMatch) => 1,
        Ok(Outcome::Refused) => 2,
        Err(_) => 3,
    })
}
