//! Texts preceded by their lengths, so that any text is possible.

ghost use Rattle.std.specs.Prelude.{◌≡◌, ◌++◌, OnOk, map};
ghost use Rattle.cargo_platform.specs.Trees.{value_of};
ghost use Rattle.byte_answers.specs.LengthPrefixed.{with_length, facts_with_lengths};

use cargo_platform::Cfg;
use std::alloc::{AllocError, Global};

/// Appends the length of a text, followed by the text.
#[tactic(auto, unfolding(crate::specs::LengthPrefixed::with_length))]
pub(crate) fn push_with_length(out: &mut Vec<u8>, text: &str) -> Result<(), AllocError>
    ensures { OnOk result (out.new.items ≡ out.old.items ++ with_length text.now) }
{
    out.extend_from_slice(&text.len().to_le_bytes())?;
    out.extend_from_slice(text.as_bytes())
}

/// Appends each fact as `Cfg` prints it, preceded by its length.
pub(crate) fn push_facts(alloc: Global, out: &mut Vec<u8>, facts: &[Cfg]) -> Result<(), AllocError>
    ensures { OnOk result
        (out.new.items ≡ out.old.items ++ facts_with_lengths (map value_of facts.now)) }
{
    for fact in facts {
        let text = fact.to_string(alloc)?;
        push_with_length(out, text.as_str())?;
    }
    Ok(())
}
