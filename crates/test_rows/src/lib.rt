//! Data-driven tests: how rows are read, how answers are written, and the results of the rows of files.
//!
//! A program that runs rows implements [`Kinds`]. It prints each row whose answer is not the expected one, with the
//! answer, and at the end the number of rows with the expected answer. A row without an expected answer is printed with
//! its answer. The status is 0 if all rows had their expected answers, 1 if some had not, and 9 if none had a wrong
//! answer but memory was lacking, or a file cannot be read.
#![tactic(auto)]

pub mod bars;
pub mod fields;
pub mod forms;
pub mod made_facts;
pub mod rows;
pub mod sizes;
pub mod texts;
pub mod trees;

use fields::Fields;
use rows::Counts;
use std::alloc::{AllocError, Global};
use std::rt::{Env, Files};
use std::{env, fs, io};

/// The reason why a row has no answer.
#[derive(Drop)]
pub enum Fault {
    Memory,
    /// The row cannot be read, for this reason.
    Row(&'static str),
}

impl From<AllocError> for Fault {
    fn from(_e: AllocError) -> Fault {
        Fault::Memory
    }
}

/// The kinds of rows that a program has.
pub trait Kinds {
    /// Returns the answer to a row of this kind, whose words are `fields`.
    fn answer(&self, alloc: Global, kind: &str, fields: &mut Fields<'_>) -> Result<String, Fault>;
}

/// Runs the rows of a file, and adds their results.
fn run_file(
    rt: &(impl Files + Print + AllocGlobal),
    kinds: &impl Kinds,
    path: &str,
    counts: &mut Counts,
) -> io::Result<()> {
    let text = fs::read_to_string(rt, path)?;
    rows::run(rt, kinds, path, &text, counts)
}

/// Runs the rows of standard input.
fn run_input(rt: &HostRuntime, kinds: &impl Kinds, counts: &mut Counts) -> io::Result<()> {
    let text = io::read_to_string(rt.alloc(), rt.stdin())?;
    rows::run(rt, kinds, "-", &text, counts)
}

fn run_files(
    rt: &(impl Files + Print + Env + AllocGlobal),
    kinds: &impl Kinds,
    counts: &mut Counts,
) -> io::Result<()> {
    for path in env::args(rt)?.skip(1) {
        run_file(rt, kinds, &path, counts)?;
    }
    Ok(())
}

/// Runs the rows of the files that the program's arguments name, or of standard input if there are none, and prints
/// their results. Returns the status.
pub fn run_all(rt: &HostRuntime, kinds: &impl Kinds) -> io::Result<u8> {
    let mut counts = Counts::new();
    run_files(rt, kinds, &mut counts)?;
    if counts.is_empty() {
        run_input(rt, kinds, &mut counts)?;
    }
    counts.print(rt)?;
    Ok(counts.status())
}
