//! Sets of names.

ghost use Rattle.std.specs.Prelude.{◌≡◌, Some, OnOk};
ghost use Rattle.std.specs.Option.{option_copied};
ghost use Rattle.declared_features.specs.NameSets.{AddsNames};

use std::alloc::AllocError;
use std::collections::BTreeSet;

/// Adds a name, if there is one.
pub fn add_name<'a>(name: Option<&'a str>, names: &mut BTreeSet<&'a str>) -> Result<(), AllocError>
    ensures { OnOk result (AddsNames names.old names.new (λ q. option_copied name.entry ≡ Some q)) }
{
    match name {
        Some(name) => {
            let _is_new = names.insert(name)?;
            Ok(())
        }
        None => Ok(()),
    }
}
