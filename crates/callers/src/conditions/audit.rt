//! Conditions as keys of maps, and their canonical texts, as a licence audit needs them.

ghost use Rattle.std.specs.Prelude.{◌≡◌, ◌↔◌, IsTrue, IfOk, OnOk, OnErr, string_bytes};
ghost use Rattle.cargo_platform.specs.Trees.{Condition, condition_of};
ghost use Rattle.cargo_platform.specs.Key.{condition_key};
ghost use Rattle.cargo_platform.specs.Platforms.{IsConditionText, IsRefusedCondition};
ghost use Rattle.cargo_platform.specs.Print.{print_condition};
ghost use Rattle.cargo_platform.specs.Errors.{IfParse, orig_of, fault_in};
ghost use Rattle.callers.specs.Audit.{HasLicenceWhere, KeepsOtherLicences, HasAsBefore};
ghost use Rattle.callers.specs.Audit.{HasHashedLicenceWhere, KeepsOtherHashedLicences, HasHashedAsBefore};

use cargo_platform::{Platform, ReadError, laws};
use std::alloc::{AllocError, Global};
use std::collections::{BTreeMap, HashMap};

/// Returns whether two conditions are the same key of a map: they are if they differ only in raw marks.
pub fn is_one_key(a: &Platform, b: &Platform) -> bool
    ensures { IsTrue result ↔ (condition_key (condition_of a.now) ≡ condition_key (condition_of b.now)) }
{
    laws::keys_are_ordered();
    a == b
}

/// Records the licence of what is used under a condition. The map then has the licence for each condition with the same
/// key, and for every other condition what it had before.
pub fn record_licence(
    licences: &mut BTreeMap<Platform, String>,
    condition: Platform,
    licence: String,
) -> Result<(), AllocError>
    ensures noted { OnOk result (HasLicenceWhere condition licence licences.new) }
    ensures others { OnOk result (KeepsOtherLicences condition licences.old licences.new) }
    ensures err { OnErr result (HasAsBefore licences.old licences.new) }
{
    laws::keys_are_ordered();
    licences.insert(condition, licence)?;
    Ok(())
}

/// Records a licence as `record_licence` does, in a hash map.
pub fn record_licence_hashed(
    hashed: &mut HashMap<Platform, String>,
    condition: Platform,
    licence: String,
) -> Result<(), AllocError>
    ensures noted { OnOk result (HasHashedLicenceWhere condition licence hashed.new) }
    ensures others { OnOk result (KeepsOtherHashedLicences condition hashed.old hashed.new) }
    ensures err { OnErr result (HasHashedAsBefore hashed.old hashed.new) }
{
    laws::keys_are_ordered();
    hashed.insert(condition, licence)?;
    Ok(())
}

/// Returns the canonical text of a key, which is parsed as the same condition as the key.
pub fn canonical(alloc: Global, key: &str) -> Result<String, ReadError>
    ensures canonical { IfOk result (λ text. (p : Condition) × IsConditionText key.now p
        × (string_bytes text ≡ print_condition p) × IsConditionText (string_bytes text) p) }
    ensures fault { IfParse result (λ e. IsRefusedCondition key.now (orig_of e) (fault_in e)) }
{
    laws::print_spells();
    let platform = Platform::from_str(alloc, key)?;
    match platform.to_string(alloc) {
        Ok(text) => Ok(text),
        Err(error) => Err(ReadError::Memory(error)),
    }
}
