//! The parts of a manifest whose names have a recorded place.

use known_targets::KnownTarget;
use std::alloc::{AllocError, Global};

/// A part of a manifest.
#[derive(Clone, Copy, Debug, PartialEq, Eq, Drop)]
enum Part {
    /// The whole manifest.
    Top,
    /// `target`.
    Target,
    /// A key of `target`.
    Key,
    /// A field of a key of `target`.
    Field,
    /// A dependency table of the package, or `workspace.dependencies`.
    Dependencies,
    /// `package`.
    Package,
    /// `workspace`.
    Workspace,
    /// `metadata` of one of them.
    Metadata,
    /// `manifest-check` in the metadata.
    Settings,
    /// A field of that table.
    List,
    /// An entry of such a list.
    Entry,
    /// A part of a document that is no manifest: each name and each element is recorded.
    Foreign,
    /// A part in which no name is recorded.
    Other,
}

/// Returns whether a name is that of a dependency table.
fn is_dependencies(name: &str) -> bool {
    matches!(
        name,
        "dependencies" | "dev-dependencies" | "build-dependencies"
    )
}

/// Returns whether a name in the whole manifest may be that of a table which is meant for another place, or is an old
/// name. `target` with a mistake in it has 5 to 7 bytes.
fn is_odd_at_top(name: &str) -> bool {
    matches!(name, "dev_dependencies" | "build_dependencies")
        || name.starts_with("cfg(")
        || name.len() >= 5 && name.len() <= 7
        || KnownTarget::by_name(name).is_some()
}

/// Returns whether a name in a dependency table is that of a table which is meant for another place.
fn is_odd_package(name: &str) -> bool {
    name == "target" || name.starts_with("cfg(")
}

/// Returns whether a name in the metadata is that of the table of rules, or that name with an underscore.
fn is_tool(name: &str) -> bool {
    matches!(name, "manifest-check" | "manifest_check")
}

/// Returns the part of the whole manifest that has this name.
fn at_top(name: &str) -> Part {
    match name {
        "target" => Part::Target,
        "package" => Part::Package,
        "workspace" => Part::Workspace,
        _ if is_dependencies(name) => Part::Dependencies,
        _ if is_odd_at_top(name) => Part::Field,
        _ => Part::Other,
    }
}

/// A part of a manifest or of another document, with its path. What the part is decides which names in it are recorded.
#[derive(Drop)]
pub struct DocumentPart {
    part: Part,
    /// The text of its path. It is empty if no name in the part is recorded.
    pub path: String,
}

impl Part {
    /// Returns the part of this part that has this name.
    fn member(self, name: &str) -> Part {
        match self {
            Part::Foreign => Part::Foreign,
            Part::Top => at_top(name),
            Part::Target => Part::Key,
            Part::Key => Part::Field,
            Part::Dependencies if is_odd_package(name) => Part::Field,
            Part::Package | Part::Workspace if name == "target" => Part::Field,
            Part::Workspace if name == "dependencies" => Part::Dependencies,
            Part::Package | Part::Workspace if name == "metadata" => Part::Metadata,
            Part::Metadata if name == "manifest-check" => Part::Settings,
            Part::Metadata if is_tool(name) => Part::Field,
            Part::Settings => Part::List,
            Part::Entry if name == "code" => Part::Entry,
            _ => Part::Other,
        }
    }
}

impl DocumentPart {
    /// Returns the whole manifest.
    pub fn top(alloc: Global) -> DocumentPart {
        DocumentPart {
            part: Part::Top,
            path: String::new(alloc),
        }
    }

    /// Returns a whole document that is no manifest.
    pub fn foreign(alloc: Global) -> DocumentPart {
        DocumentPart {
            part: Part::Foreign,
            path: String::new(alloc),
        }
    }

    /// Returns a part in which no name is recorded.
    pub fn other(alloc: Global) -> DocumentPart {
        DocumentPart {
            part: Part::Other,
            path: String::new(alloc),
        }
    }

    /// Returns the part of this name. The path of a key of `target` is still empty. Fails if an allocation fails.
    pub fn member(&self, alloc: Global, name: &str) -> Result<DocumentPart, AllocError> {
        let part = self.part.member(name);
        match (self.part, part) {
            (_, Part::Other) => Ok(DocumentPart::other(alloc)),
            (Part::Entry, _) => Ok(DocumentPart {
                part,
                path: self.path.clone()?,
            }),
            (Part::Target, _) => Ok(DocumentPart {
                part,
                path: String::new(alloc),
            }),
            _ => Ok(DocumentPart {
                part,
                path: child_path(alloc, self.path.as_str(), name)?,
            }),
        }
    }

    /// Returns the element of an array at an index. Fails if an allocation fails.
    pub fn element(&self, alloc: Global, index: usize) -> Result<DocumentPart, AllocError> {
        let part = match self.part {
            Part::List => Part::Entry,
            Part::Foreign => Part::Foreign,
            _ => return Ok(DocumentPart::other(alloc)),
        };
        let name = format!(in alloc; "{index}")?;
        Ok(DocumentPart {
            part,
            path: child_path(alloc, self.path.as_str(), name.as_str())?,
        })
    }

    /// Returns whether the part is the whole manifest.
    pub fn is_top(&self) -> bool {
        self.part == Part::Top
    }

    /// Returns whether the part is `target`.
    pub fn is_target(&self) -> bool {
        self.part == Part::Target
    }

    /// Returns whether the part is a field of a key of `target`, or a table that is meant for one.
    pub fn is_field(&self) -> bool {
        self.part == Part::Field
    }

    /// Returns whether the place of a value is recorded: of an entry of a list in the metadata, and of a text in a
    /// document that is no manifest.
    pub fn records_value(&self) -> bool {
        self.part == Part::Entry || self.part == Part::Foreign
    }

    /// Returns whether the part is in a document that is no manifest.
    pub fn is_foreign(&self) -> bool {
        self.part == Part::Foreign
    }

    /// Returns whether a name in the part is recorded whatever its value is. `member` is the part that has this name.
    pub fn records(&self, name: &str) -> bool {
        match self.part {
            Part::Top => at_top(name) == Part::Field,
            Part::Key => true,
            Part::Dependencies => is_odd_package(name),
            Part::Package | Part::Workspace => name == "target",
            Part::Metadata => is_tool(name),
            Part::Settings | Part::Foreign => true,
            _ => false,
        }
    }
}

/// Returns the path of the key of `target` with so many keys before it. It does not contain the key, since a key may be
/// long and have many fields. Fails if an allocation fails.
pub fn path_of_key(alloc: Global, place: usize) -> Result<String, AllocError> {
    format!(in alloc; "target {place} ")
}

/// Returns the text of a path and one name more. The length before the name makes the texts of two paths differ.
pub fn child_path(alloc: Global, path: &str, name: &str) -> Result<String, AllocError> {
    let length = name.len();
    format!(in alloc; "{path}{length}:{name}")
}
