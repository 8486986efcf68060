//! The keys of a policy.

/// The treatment of a key.
#[derive(Clone, Copy, Debug, PartialEq, Eq, Drop)]
pub enum Treatment {
    /// Its value is used.
    Used,
    /// It has a meaning for cargo-deny, and none here. Its name is reported once.
    Ignored,
    /// It has no effect in cargo-deny either.
    Idle,
}

/// The tables of a policy. Each element of `targets`, `exclude` and `exceptions` is a table of its own kind.
#[derive(Clone, Copy, Debug, PartialEq, Eq, Drop)]
pub enum TableKind {
    Top,
    Graph,
    Target,
    Package,
    Licenses,
    Exception,
    Private,
}

impl TableKind {
    /// Returns the keys of the table, as cargo-deny documents them, with what is done with each.
    pub fn keys(self) -> &'static [(&'static str, Treatment)] {
        match self {
            TableKind::Top => &TOP,
            TableKind::Graph => &GRAPH,
            TableKind::Target => &TARGET,
            TableKind::Package => &PACKAGE,
            TableKind::Licenses => &LICENSES,
            TableKind::Exception => &EXCEPTION,
            TableKind::Private => &PRIVATE,
        }
    }

    /// Returns what is done with a key, or `None` if the table has no such key.
    pub fn treatment(self, key: &str) -> Option<Treatment> {
        for (name, treatment) in self.keys() {
            if *name == key {
                return Some(*treatment);
            }
        }
        None
    }
}

const TOP: [(&str, Treatment); 6] = [
    ("graph", Treatment::Used),
    ("licenses", Treatment::Used),
    ("advisories", Treatment::Ignored),
    ("bans", Treatment::Ignored),
    ("output", Treatment::Ignored),
    ("sources", Treatment::Ignored),
];

const GRAPH: [(&str, Treatment); 7] = [
    ("targets", Treatment::Used),
    ("features", Treatment::Used),
    ("all-features", Treatment::Used),
    ("no-default-features", Treatment::Used),
    ("exclude", Treatment::Used),
    ("exclude-dev", Treatment::Used),
    ("exclude-unpublished", Treatment::Ignored),
];

const TARGET: [(&str, Treatment); 2] = [
    ("triple", Treatment::Used),
    ("features", Treatment::Ignored),
];

const PACKAGE: [(&str, Treatment); 3] = [
    ("crate", Treatment::Used),
    ("name", Treatment::Used),
    ("version", Treatment::Used),
];

const LICENSES: [(&str, Treatment); 10] = [
    ("allow", Treatment::Used),
    ("exceptions", Treatment::Used),
    ("private", Treatment::Used),
    ("unused-allowed-license", Treatment::Used),
    ("unused-license-exception", Treatment::Used),
    ("include-dev", Treatment::Used),
    ("include-build", Treatment::Ignored),
    ("clarify", Treatment::Ignored),
    ("confidence-threshold", Treatment::Ignored),
    ("version", Treatment::Idle),
];

const EXCEPTION: [(&str, Treatment); 4] = [
    ("crate", Treatment::Used),
    ("name", Treatment::Used),
    ("version", Treatment::Used),
    ("allow", Treatment::Used),
];

const PRIVATE: [(&str, Treatment); 3] = [
    ("ignore", Treatment::Used),
    ("registries", Treatment::Ignored),
    ("ignore-sources", Treatment::Ignored),
];
