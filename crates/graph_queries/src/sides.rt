//! The sides for which packages are built, the target and the host, as they are named and printed.

use known_targets::TargetSet;
use package_graphs::Side;

/// Targets for each side: those on which a package is built for it, or on which a dependency leads to it.
#[derive(Clone, Copy, Drop)]
pub struct BySide {
    pub target: TargetSet,
    pub host: TargetSet,
}

impl BySide {
    /// Returns those of the targets that a set contains.
    pub fn within(self, targets: TargetSet) -> BySide {
        BySide {
            target: self.target.intersection(targets),
            host: self.host.intersection(targets),
        }
    }

    /// Returns the targets of both sides.
    pub fn targets(self) -> TargetSet {
        self.target.union(self.host)
    }

    /// Returns the sides that have a target.
    pub fn sides(self) -> Sides {
        Sides {
            target: !self.target.is_empty(),
            host: !self.host.is_empty(),
        }
    }
}

/// The sides for which a package is built, or to which a dependency leads.
#[derive(Clone, Copy, Drop)]
pub struct Sides {
    pub target: bool,
    pub host: bool,
}

impl Sides {
    /// Returns `target`, `host` or `both`, or `None` if there is no side.
    pub fn word(self) -> Option<&'static str> {
        if self.target && self.host {
            Some("both")
        } else if self.target {
            Some("target")
        } else if self.host {
            Some("host")
        } else {
            None
        }
    }

    /// Returns the part of a line that names the sides. It is empty if the host is not one of them.
    pub fn note(self) -> &'static str {
        if self.target && self.host {
            ", for both sides"
        } else if self.host {
            ", for the host"
        } else {
            ""
        }
    }
}

/// Returns the name of a side.
pub fn side_word(side: Side) -> &'static str {
    match side {
        Side::Target => "target",
        Side::Host => "host",
    }
}

/// Returns the part of a line that names the side. It is empty for the target.
pub fn side_note(side: Side) -> &'static str {
    match side {
        Side::Target => "",
        Side::Host => ", for the host",
    }
}

/// Returns whether a query for a side, or for both if that is `None`, includes this one.
pub fn is_selected(selected: Option<Side>, side: Side) -> bool {
    match selected {
        Some(selected) => selected.is_same(side),
        None => true,
    }
}
