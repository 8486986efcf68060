//! The reader of keys in arguments.

ghost use Rattle.std.specs.Prelude.{IfOk};
ghost use Rattle.cargo_platform.specs.Trees.{condition_of};
ghost use Rattle.cargo_platform.specs.Platforms.{IsConditionText};
ghost use Rattle.input_limits.specs.Limits.{IsShallow};

use crate::answer::QueryError;
use crate::printing::{invalid_key_message, key_too_deep_message};
use cargo_platform::Platform;
use input_limits::KeyError;
use std::alloc::Global;

/// Reads a key, which must not be nested too deeply. Fails with a message if it is invalid.
pub fn read_key(alloc: Global, key: &str) -> Result<Platform, QueryError>
    ensures condition { IfOk result (λ p. IsConditionText key.now (condition_of p)) }
    ensures shallow { IfOk result (λ _. IsShallow key.now) }
{
    match input_limits::read_key(alloc, key) {
        Ok(platform) => Ok(platform),
        Err(KeyError::TooDeep(at)) => Err(QueryError::Unusable(key_too_deep_message(alloc, at)?)),
        Err(KeyError::Parse(error)) => Err(QueryError::Unusable(invalid_key_message(
            alloc, key, &error,
        )?)),
        Err(KeyError::Memory(refused)) => Err(QueryError::Memory(refused)),
    }
}
