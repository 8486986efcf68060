//! Divides targets into those that some sets do not distinguish.

ghost use Rattle.std.specs.Prelude.{IfOk, OnOk};
ghost use Rattle.known_targets.specs.Classes.{AreClasses};
ghost use Rattle.known_targets.specs.Parts.{AddsPart, AddsParts, AreParts};

use crate::TargetSet;
use std::alloc::{AllocError, Global};

/// Returns the known targets in classes: two are in one class exactly if each of the sets has both or neither. Fails
/// only if an allocation fails.
pub fn partition_targets(alloc: Global, sets: &[TargetSet]) -> Result<Vec<TargetSet>, AllocError>
    // Each known target is in one class, with exactly those that each of the sets has too, or lacks too. No class is
    // empty.
    ensures { IfOk result (λ classes. AreClasses sets.now classes.items) }
{
    let mut classes = Vec::new(alloc);
    classes.push(TargetSet::all())?;
    'sets: for set in sets {
        classes = split(alloc, classes, *set)?;
    }
    Ok(classes)
}

/// Returns the parts of each class that are inside and outside the set.
fn split(
    alloc: Global,
    classes: Vec<TargetSet>,
    set: TargetSet,
) -> Result<Vec<TargetSet>, AllocError>
    ensures { IfOk result (λ parts. AreParts set classes.items parts.items) }
{
    let mut parts = Vec::new(alloc);
    'classes: for class in &classes {
        add_parts(&mut parts, *class, set)?;
    }
    Ok(parts)
}

/// Adds the parts of a class that are inside and outside the set.
fn add_parts(parts: &mut Vec<TargetSet>, class: TargetSet, set: TargetSet) -> Result<(), AllocError>
    ensures { OnOk result (AddsParts set class parts.old.items parts.new.items) }
{
    let inside = class.intersection(set);
    let outside = class.intersection(set.complement());
    add_part(parts, inside)?;
    add_part(parts, outside)?;
    Ok(())
}

/// Adds a part that is not empty.
fn add_part(parts: &mut Vec<TargetSet>, part: TargetSet) -> Result<(), AllocError>
    ensures { OnOk result (AddsPart parts.old.items parts.new.items part) }
{
    if part.is_empty() {
        return Ok(());
    }
    parts.push(part)?;
    Ok(())
}
