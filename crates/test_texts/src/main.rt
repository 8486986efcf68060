//! Runs the rows of tests on the library: texts that are parsed, printed, matched, compared and warned about, also at
//! each size, and on licence expressions.
#![tactic(auto)]

mod asked;
mod caller_rows;
mod calls;
mod copies;
mod cutting;
mod licences;
mod matching;
mod ordering;
mod reading;
mod snippets;
mod times;
mod warnings;

use std::alloc::Global;
use std::process::ExitCode;
use test_rows::fields::Fields;
use test_rows::{Fault, Kinds, run_all};

struct OfTexts;

impl Kinds for OfTexts {
    fn answer(&self, alloc: Global, kind: &str, fields: &mut Fields<'_>) -> Result<String, Fault> {
        let (of, call) = kind.split_once('.').unwrap_or((kind, ""));
        match of {
            "read" => reading::answer(alloc, call, fields),
            "cut" => cutting::answer(alloc, call, fields),
            "call" => calls::answer(alloc, call, fields),
            "copy" => copies::answer(alloc, call, fields),
            "snippet" => snippets::answer(alloc, call, fields),
            "match" => matching::answer(alloc, call, fields),
            "order" => ordering::answer(alloc, call, fields),
            "warn" => warnings::answer(alloc, call, fields),
            "times" => times::answer(alloc, call, fields),
            "licence" => licences::answer(alloc, call, fields),
            "callers" => caller_rows::answer(alloc, call, fields),
            _ => Err(Fault::Row("there is no such kind")),
        }
    }
}

fn main(rt: HostRuntime) -> ExitCode {
    ExitCode::from(run_all(&rt, &OfTexts).unwrap_or(9))
}
