//! A table, read from a text.

ghost use Rattle.std.specs.Prelude.{◌≡◌, ◌≢◌, ◌<◌, ◌≤◌, ◌+◌, ℕ, ◌^◌, map, length, IfOk, IsUtf8};
ghost use Rattle.cargo_platform.specs.Lines.{lines_of};
ghost use Rattle.target_tables.specs.Rows.{row_of, rows_of, AreRows, AreDistinct};
ghost use Rattle.target_tables.specs.Blocks.{IsBlock, IsNoFactOf, IsNoFactBehind};
ghost use Rattle.cargo_platform.specs.Trees.{value_of};
ghost use Rattle.cargo_platform.specs.FactLines.{SpellFacts};
ghost use Rattle.target_tables.specs.Refusals.{IfLine, IfTwice, IsNoFact, IsRepeat};

use crate::blocks::{first_line, skip_blank_lines, take_block};
use crate::error::TableError;
use crate::table::{TargetRow, TargetTable, place_of};
use cargo_platform::{Cfg, FactsError, read_facts};
use std::alloc::{AllocError, Global};

/// Returns the facts of a target. `before` is the number of lines of the whole text before the first of them.
fn read_block(alloc: Global, before: usize, text: &str) -> Result<Vec<Cfg>, TableError>
    requires { before + length (lines_of text.now) < 2 ^ 64 }
    ensures facts { IfOk result (λ v. SpellFacts (lines_of text.now) (map value_of v.items)) }
    ensures refused { IfLine result (λ n e. IsNoFactOf (lines_of text.now) before n e) }
    ensures not_twice { IfTwice result (λ n. ⊥) }
{
    match read_facts(alloc, text) {
        Ok(facts) => Ok(facts),
        Err(FactsError::Line { number, error }) => Err(TableError::Line {
            number: before + number,
            error,
        }),
        Err(FactsError::Memory(refused)) => Err(TableError::Memory(refused)),
    }
}

/// Returns the row of a target with this name, whose facts are at the beginning of a text, and the text after them.
/// `before` is the number of lines of the whole text before it.
fn read_row<'a>(
    alloc: Global,
    name: &str,
    before: usize,
    text: &'a str,
) -> Result<(TargetRow, &'a str), TableError>
    requires { before + length text.now < 2 ^ 64 }
    ensures row { IfOk result (λ r. IsBlock (lines_of text.now) (row_of r.0).facts (lines_of r.1.now)) }
    ensures name { IfOk result (λ r. (row_of r.0).name ≡ name.now) }
    ensures length { IfOk result (λ r. length (row_of r.0).facts + length r.1.now ≤ length text.now) }
    ensures utf8 { IfOk result (λ r. IsUtf8 r.1.now) }
    ensures refused { IfLine result (λ n e. IsNoFactBehind (lines_of text.now) before n e) }
    ensures not_twice { IfTwice result (λ n. ⊥) }
{
    let (front, behind) = take_block(alloc, text)?;
    let facts = read_block(alloc, before, front.as_str())?;
    let name = String::from_str(alloc, name)?;
    Ok((TargetRow { name, facts }, behind))
}

/// Parses the targets of a rustc: for each target a line with its name and then its facts, one on each line, as
/// `rustc --print cfg --target NAME` prints them. Empty lines separate the targets. There may be several, also before
/// the first target and after the last one.
///
/// A line ends with `\n` and with nothing else. Returns `TableError::Line` for the first line that is not a fact, or
/// `TableError::Twice` for the first target that was named before, whichever comes first. Returns `TableError::Memory`
/// if an allocation fails.
pub fn read_table(alloc: Global, text: &str) -> Result<TargetTable, TableError>
    // The rows are exactly the blocks of the text, in order: each with its name, and the facts that its lines mean.
    ensures rows { IfOk result (λ table. AreRows (lines_of text.now) (rows_of table)) }
    // No two rows have the same name.
    ensures distinct { IfOk result (λ table. AreDistinct (rows_of table)) }
    // The line of the error is the first that is not a fact or names a target again, by its number in the whole text.
    ensures no_fact { IfLine result (λ n e. IsNoFact (lines_of text.now) n e) }
    ensures twice { IfTwice result (λ n. IsRepeat (lines_of text.now) n) }
{
    let _size = text.len();
    let mut rows = Vec::new(alloc);
    let (mut rest, mut passed) = skip_blank_lines(text);
    'blocks: while !rest.is_empty() {
        let (name, facts) = first_line(rest);
        passed += 1;
        if place_of(&rows, name).is_some() {
            return Err(TableError::Twice { number: passed });
        }
        let (row, behind) = read_row(alloc, name, passed, facts)?;
        passed += row.facts.len();
        if rows.push(row).is_err() {
            return Err(TableError::Memory(AllocError));
        }
        let (next, empty) = skip_blank_lines(behind);
        passed += empty;
        rest = next;
    }
    Ok(TargetTable { rows })
}
