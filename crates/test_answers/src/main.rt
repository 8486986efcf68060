//! Runs rows of tests on decisions for targets that are known in part, on exact answers and on known targets.
#![tactic(auto)]

mod all_sets;
mod calls;
mod exact;
mod partial;
mod row_facts;
mod targets;

use std::alloc::Global;
use std::process::ExitCode;
use test_rows::fields::Fields;
use test_rows::{Fault, Kinds, run_all};

struct OfAnswers;

impl Kinds for OfAnswers {
    fn answer(&self, alloc: Global, kind: &str, fields: &mut Fields<'_>) -> Result<String, Fault> {
        let (of, call) = kind.split_once('.').unwrap_or((kind, ""));
        match of {
            "call" => calls::answer(alloc, call, fields),
            "part" => partial::answer(alloc, call, fields),
            "exact" => exact::answer(alloc, call, fields),
            "at" => targets::answer(alloc, call, fields),
            _ => Err(Fault::Row("there is no such kind")),
        }
    }
}

fn main(rt: HostRuntime) -> ExitCode {
    ExitCode::from(run_all(&rt, &OfAnswers).unwrap_or(9))
}
