//! A parsed manifest: its table, its text, and the places of names in it.

ghost use Rattle.std.specs.Prelude.{IfOk};
ghost use Rattle.toml.specs.View.{table_view};
ghost use Rattle.manifests.specs.Tables.{target_of, target_told};
ghost use Rattle.manifests.specs.Documents.{AreInSomeOrder};

use crate::key_locations::SourceMap;
use crate::{TargetValue, target_keys};
use std::alloc::{AllocError, Global};
use toml::Table;

/// A parsed manifest without its path: its table, and the places at which its text spells names.
#[derive(Drop)]
pub struct Document {
    pub table: Table,
    pub locations: SourceMap,
}

impl Document {
    /// Returns the manifest with this table and the places of names in `text`, from which the table was parsed. Fails
    /// if an allocation fails.
    pub fn of(alloc: Global, table: Table, text: &str) -> Result<Document, AllocError> {
        Ok(Document {
            table,
            locations: SourceMap::of(alloc, text)?,
        })
    }

    /// Returns the manifest with this table, an empty text and no places.
    pub fn of_table(alloc: Global, table: Table) -> Document {
        Document {
            table,
            locations: SourceMap::none(alloc),
        }
    }

    /// Returns the value of `target`: its keys, in the order in which they first appear in the text. Keys for which
    /// that is not certain come last, in the order of their bytes. Fails if an allocation fails.
    pub fn target_keys(&self, alloc: Global) -> Result<TargetValue<'_>, AllocError>
        ensures { IfOk result (λ found. AreInSomeOrder (target_of (table_view self.now.table)) (target_told found)) }
    {
        match target_keys(alloc, &self.table)? {
            TargetValue::Keys(mut keys) => {
                keys.sort_by_cached_key(|key| self.locations.ordinal_of(key.key))?;
                Ok(TargetValue::Keys(keys))
            }
            TargetValue::NoTable => Ok(TargetValue::NoTable),
            TargetValue::Absent => Ok(TargetValue::Absent),
        }
    }
}
