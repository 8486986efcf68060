//! Facts as lines.

ghost use Rattle.std.specs.Prelude.{◌≡◌, ◌++◌, IfOk, OnOk, map, string_bytes};
ghost use Rattle.cargo_platform.specs.Trees.{value_of};
ghost use Rattle.byte_answers.specs.Answers.{fact_lines};

use cargo_platform::Cfg;
use std::alloc::{AllocError, Global};

/// Appends a line for each fact, as `Cfg` prints it.
pub(crate) fn push_fact_lines(
    alloc: Global,
    text: &mut String,
    facts: &[Cfg],
) -> Result<(), AllocError>
    ensures { OnOk result
        (string_bytes text.new ≡ string_bytes text.old ++ fact_lines (map value_of facts.now)) }
{
    for fact in facts {
        let line = fact.to_string(alloc)?;
        text.push_str(line.as_str())?;
        text.push_str("\n")?;
    }
    Ok(())
}
