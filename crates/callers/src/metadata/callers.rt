//! A caller of `cargo_metadata`, as its users write it.

ghost use Rattle.std.specs.Prelude.{IfOk};
ghost use Rattle.serde_json.specs.View.{view};
ghost use Rattle.callers.specs.Counted.{HasSoManyPackages};

use cargo_metadata::{MetadataError, read};
use serde_json::Value;
use std::alloc::Global;

/// Returns the number of packages of a document.
pub fn package_count(alloc: Global, document: &Value) -> Result<usize, MetadataError>
    ensures { IfOk result (λ count. HasSoManyPackages (view document.now) count) }
{
    let metadata = read(alloc, document)?;
    Ok(metadata.packages.len())
}
