//! The rows of a text, and their results.

use crate::fields::{Fields, Setting};
use crate::{Fault, Kinds, sizes};
use std::alloc::{AllocError, Global};
use std::io;

/// The result of a row.
#[derive(Drop)]
enum Came {
    AsStated,
    Otherwise(String),
    /// The row has no expected answer, and this is its answer.
    Answered(String),
}

/// The numbers of rows that had their expected answers, that had not, that have none, and that lacked memory.
#[derive(Drop)]
pub struct Counts {
    asked: u32,
    as_stated: u32,
    otherwise: u32,
    memory: u32,
}

impl Counts {
    /// Returns counts of no rows.
    pub fn new() -> Counts {
        Counts {
            asked: 0,
            as_stated: 0,
            otherwise: 0,
            memory: 0,
        }
    }

    /// Returns whether no row was counted.
    pub fn is_empty(&self) -> bool {
        self.asked == 0 && self.as_stated == 0 && self.otherwise == 0 && self.memory == 0
    }

    /// Prints the numbers of rows, unless no row has an expected answer.
    pub fn print(&self, rt: &impl Print) -> io::Result<()> {
        let as_stated = self.as_stated;
        let otherwise = self.otherwise;
        if self.asked > 0 && self.as_stated == 0 && self.otherwise == 0 {
            return Ok(());
        }
        if self.memory == 0 {
            return println!(rt; "{as_stated} rows as stated, {otherwise} otherwise");
        }
        let memory = self.memory;
        println!(rt; "{as_stated} rows as stated, {otherwise} otherwise, {memory} without memory")
    }

    /// Returns the exit status of the program.
    pub fn status(&self) -> u8 {
        if self.otherwise > 0 {
            return 1;
        }
        if self.memory > 0 { 9 } else { 0 }
    }
}

/// A row that is read line by line, and the number of its first line.
#[derive(Drop)]
struct Row {
    text: String,
    number: usize,
}

impl Row {
    /// Appends a line that continues the row. A space separates the two, unless the line before ends with `\`.
    fn add(&mut self, line: &str) -> Result<(), AllocError> {
        match self.text.pop() {
            Some('\\') => {}
            Some(last) => {
                self.text.push(last)?;
                self.text.push(' ')?;
            }
            None => {}
        }
        self.text.push_str(line.trim_start())
    }

    /// Begins the row of another line.
    fn begin(&mut self, line: &str, number: usize) -> Result<(), AllocError> {
        self.text.clear();
        self.number = number;
        self.text.push_str(line)
    }
}

/// Runs each row of a text, and prints those whose answers are not the expected ones. A line that begins with a space
/// continues the row before it. A line that is empty or begins with `#` is not a row.
pub fn run(
    rt: &(impl Print + AllocGlobal),
    kinds: &impl Kinds,
    path: &str,
    text: &str,
    counts: &mut Counts,
) -> io::Result<()> {
    let mut settings = Vec::new(rt.alloc());
    let mut row = Row {
        text: String::new(rt.alloc()),
        number: 0,
    };
    for (at, line) in text.lines().enumerate() {
        if line.starts_with(' ') {
            row.add(line)?;
            continue;
        }
        run_row(rt, kinds, path, &row, &mut settings, counts)?;
        row.begin(line, at.saturating_add(1))?;
    }
    run_row(rt, kinds, path, &row, &mut settings, counts)
}

/// Runs a row that was read as a whole, or takes the setting that it has.
fn run_row(
    rt: &(impl Print + AllocGlobal),
    kinds: &impl Kinds,
    path: &str,
    row: &Row,
    settings: &mut Vec<Setting>,
    counts: &mut Counts,
) -> io::Result<()> {
    let text = row.text.as_str();
    if text.is_empty() || text.starts_with('#') {
        return Ok(());
    }
    if let Some(setting) = text.strip_prefix("set ") {
        let setting = Setting::new(rt.alloc(), setting)?;
        settings.push(setting).map_err(AllocError::from)?;
        return Ok(());
    }
    let came = came_to(rt.alloc(), kinds, text, settings);
    count(rt, path, row.number, text, came, counts)
}

/// Counts a row, and prints it if its answer is not the expected one.
fn count(
    rt: &impl Print,
    path: &str,
    number: usize,
    row: &str,
    came: Result<Came, Fault>,
    counts: &mut Counts,
) -> io::Result<()> {
    match came {
        Ok(Came::Answered(given)) => {
            counts.asked = counts.asked.saturating_add(1);
            println!(rt; "{row} => {given}")
        }
        Ok(Came::AsStated) => {
            counts.as_stated = counts.as_stated.saturating_add(1);
            Ok(())
        }
        Ok(Came::Otherwise(given)) => {
            counts.otherwise = counts.otherwise.saturating_add(1);
            println!(rt; "{path}:{number}: {row}\n    gives: {given}")
        }
        Err(Fault::Memory) => {
            counts.memory = counts.memory.saturating_add(1);
            Ok(())
        }
        Err(Fault::Row(why)) => {
            counts.otherwise = counts.otherwise.saturating_add(1);
            println!(rt; "{path}:{number}: {row}\n    can't be read: {why}")
        }
    }
}

/// Returns the result of a row. A row that begins with `sizes` is a row for each of its sizes.
fn came_to(
    alloc: Global,
    kinds: &impl Kinds,
    row: &str,
    settings: &[Setting],
) -> Result<Came, Fault> {
    let Some(row) = row.strip_prefix("sizes ") else {
        return asked(alloc, kinds, row, settings);
    };
    let (sizes, row) = row.split_once(' ').unwrap_or((row, ""));
    for size in sizes::sizes_of(alloc, sizes)? {
        let row = sizes::row_at(alloc, row, size)?;
        match asked(alloc, kinds, &row, settings)? {
            Came::AsStated => {}
            Came::Otherwise(given) => {
                return Ok(Came::Otherwise(format!(in alloc; "{given} at size {size}")?));
            }
            Came::Answered(given) => return Ok(Came::Answered(given)),
        }
    }
    Ok(Came::AsStated)
}

fn asked(
    alloc: Global,
    kinds: &impl Kinds,
    row: &str,
    settings: &[Setting],
) -> Result<Came, Fault> {
    let mut fields = Fields::new(row, settings);
    let kind = fields.word().unwrap_or("");
    let given = kinds.answer(alloc, kind, &mut fields)?;
    match fields.expected()? {
        None => Ok(Came::Answered(given)),
        Some(stated) => {
            if given.as_str() == stated {
                return Ok(Came::AsStated);
            }
            Ok(Came::Otherwise(given))
        }
    }
}
