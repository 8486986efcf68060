//! Indexes by name or id.

ghost use Rattle.std.specs.Prelude.{◌≡◌, None, IfOk, OnOk, List, ℕ};
ghost use Rattle.cargo_metadata.specs.Indexes.{index_at, index_with};

use std::alloc::{AllocError, Global};
use std::collections::BTreeMap;

/// The index at which each name or id was added first.
#[derive(Drop)]
pub struct Indexes<'a> {
    first: BTreeMap<&'a str, usize>,
}

impl<'a> Indexes<'a> {
    /// Returns an empty table.
    pub fn new(alloc: Global) -> Indexes<'a>
        // The table is empty.
        ensures { (q : List ℕ) → index_at result q ≡ None }
    {
        Indexes {
            first: BTreeMap::new(alloc),
        }
    }

    /// Returns the index of a name or id.
    pub fn find(&self, id: &'a str) -> Option<usize>
        // The result is the index with which the name or id was added first.
        ensures { result ≡ index_at self.now id.now }
    {
        self.first.get(&id).copied()
    }

    /// Adds a name or id with its index. If it was added before, returns its earlier index, which stays. Fails if an
    /// allocation fails.
    pub fn add(&mut self, id: &'a str, index: usize) -> Result<Option<usize>, AllocError>
        // The result is the earlier index, if there is one. It stays. Otherwise the index is added.
        ensures earlier { IfOk result (λ earlier. earlier ≡ index_at self.old id.now) }
        ensures added { OnOk result ((q : List ℕ) → index_at self.new q ≡ index_with self.old id.now index q) }
    {
        if let Some(earlier) = self.find(id) {
            return Ok(Some(earlier));
        }
        let _none = self.first.insert(id, index)?;
        Ok(None)
    }
}
