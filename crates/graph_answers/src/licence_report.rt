//! The report of an audit for people: the licences for which packages are reported, each with its packages, and how
//! many packages there are by reason.

use crate::dependency_paths::PathPackages;
use crate::faults::fault_lines;
use crate::graph::Graph;
use crate::lines::{format_targets, format_text, push, push_comma};
use crate::query::GraphQuery;
use cargo_metadata::Package as Described;
use cargo_platform::printable_excerpt;
use known_targets::TargetSet;
use licence_audits::{Finding, PackageFinding, Subject};
use std::alloc::{AllocError, Global};

/// The indentation of the lines below that of a licence.
const INDENT: &str = "    ";

/// The reason why a package is reported.
#[derive(Clone, Copy, Debug, PartialEq, Eq, Drop)]
pub enum Reason {
    /// Its licence is not allowed.
    NotAllowed,
    /// It has neither a licence nor a licence file.
    Missing,
    /// It has a licence file alone.
    File,
    /// Its licence is no expression.
    Refused,
}

/// The reasons in the order in which packages are counted, with the text behind their number.
const REASONS: [(Reason, &str); 4] = [
    (Reason::NotAllowed, "not allowed"),
    (Reason::Missing, "without a licence"),
    (Reason::File, "with a licence file alone"),
    (Reason::Refused, "without an expression"),
];

impl Reason {
    /// Returns the reason of a finding on a package.
    pub fn of(finding: &Finding, described: &Described<'_>) -> Reason {
        match finding {
            Finding::NotAllowed(_) => Reason::NotAllowed,
            Finding::Missing if described.license_file.is_some() => Reason::File,
            Finding::Missing => Reason::Missing,
            Finding::Refused(_) => Reason::Refused,
        }
    }

    /// Returns the name of the reason in JSON.
    pub fn word(self) -> &'static str {
        match self {
            Reason::NotAllowed => "not-allowed",
            Reason::Missing => "missing",
            Reason::File => "file",
            Reason::Refused => "refused",
        }
    }
}

/// Formats a finding on a package: the expression, or why there is none.
fn format_finding(
    alloc: Global,
    finding: &Finding,
    described: &Described<'_>,
) -> Result<String, AllocError> {
    match (finding, described.license_file) {
        (Finding::NotAllowed(expression), _) => {
            let text = format!(in alloc; "{expression}")?;
            printable_excerpt(alloc, text.as_str())
        }
        (Finding::Missing, Some(file)) => {
            let file = format_text(alloc, file)?;
            format!(in alloc; "licence file {file}")
        }
        (Finding::Missing, None) => String::from_str(alloc, "no licence"),
        (Finding::Refused(_), _) => String::from_str(alloc, "refused licence"),
    }
}

/// The label of the licence of a reported package, and the index of the report.
type Labelled = (String, usize);

/// Returns what is found of the licences of the reported packages, sorted.
fn sorted_labels(
    alloc: Global,
    graph: &Graph<'_>,
    findings: &[PackageFinding],
) -> Result<Vec<Labelled>, AllocError> {
    let mut labels = Vec::new(alloc);
    for place in 0..findings.len() {
        let one = &findings[place];
        let Some(index) = graph.order.get(one.place) else {
            continue;
        };
        if let Some(described) = graph.described(*index) {
            labels.push((format_finding(alloc, &one.finding, described)?, place))?;
        }
    }
    labels.sort()?;
    Ok(labels)
}

/// The packages that an audit reports.
#[derive(Clone, Copy, Drop)]
pub struct LicenceReport<'r, 'a> {
    pub graph: &'r Graph<'a>,
    pub findings: &'r [PackageFinding],
    pub query: &'r GraphQuery<'a>,
    /// The dependency paths to the reported packages, by the indexes of these.
    pub paths: &'r [PathPackages],
}

impl<'r, 'a> LicenceReport<'r, 'a> {
    /// Returns the index of the package of a report.
    fn index_of(&self, place: usize) -> Option<usize> {
        let one = self.findings.get(place)?;
        self.graph.order.get(one.place).copied()
    }

    /// Returns the indented lines of the error of a licence that is no expression, and an empty text for any other.
    fn error_lines(&self, alloc: Global, place: usize) -> Result<String, AllocError> {
        match self.findings.get(place) {
            Some(
                PackageFinding {
                    place: _,
                    finding: Finding::Refused(error),
                },
            ) => fault_lines(alloc, error),
            _ => Ok(String::new(alloc)),
        }
    }

    /// Appends the line of a dependency path to a package, indented, unless the package is a root.
    fn push_path(
        &self,
        text: &mut String,
        alloc: Global,
        indent: &str,
        index: usize,
    ) -> Result<(), AllocError> {
        let Some(path) = self.paths.get(index) else {
            return Ok(());
        };
        if path.len() < 2 {
            return Ok(());
        }
        push(text, indent)?;
        for place in 0..path.len() {
            if place > 0 {
                push(text, " -> ")?;
            }
            push(
                text,
                self.graph.format_package(alloc, path[place])?.as_str(),
            )?;
        }
        push(text, "\n")
    }

    /// Appends the line of a package behind a text, the error of its licence if that is no expression, and a dependency
    /// path to the package.
    fn push_package(
        &self,
        text: &mut String,
        alloc: Global,
        start: &str,
        place: usize,
    ) -> Result<(), AllocError> {
        let Some(index) = self.index_of(place) else {
            return Ok(());
        };
        let package = self.graph.format_package(alloc, index)?;
        let built = self.graph.built(index, self.query);
        let targets = format_targets(alloc, built.targets(), self.query)?;
        let note = built.sides().note();
        let line = format!(in alloc; "{start}{package}{note}, {targets}\n")?;
        push(text, line.as_str())?;
        push(text, self.error_lines(alloc, place)?.as_str())?;
        let indent = if start == INDENT { "        " } else { INDENT };
        self.push_path(text, alloc, indent, index)
    }

    /// Returns the targets on which some of the packages are in the build.
    fn targets_of(&self, group: &[Labelled]) -> TargetSet {
        let mut targets = TargetSet::none();
        for (_, place) in group {
            if let Some(index) = self.index_of(*place) {
                targets = targets.union(self.graph.targets_in(index, self.query));
            }
        }
        targets
    }

    /// Appends the lines of a licence for which packages are reported. With several packages, the first line says how
    /// many there are and on which targets one of them is in the build.
    fn push_group(
        &self,
        text: &mut String,
        alloc: Global,
        label: &str,
        group: &[Labelled],
    ) -> Result<(), AllocError> {
        if group.len() == 1 {
            let start = format!(in alloc; "{label}: ")?;
            for (_, place) in group {
                self.push_package(text, alloc, start.as_str(), *place)?;
            }
            return Ok(());
        }
        let targets = format_targets(alloc, self.targets_of(group), self.query)?;
        let count = group.len();
        let line = format!(in alloc; "{label}: {count} packages, {targets}\n")?;
        push(text, line.as_str())?;
        for (_, place) in group {
            self.push_package(text, alloc, INDENT, *place)?;
        }
        Ok(())
    }

    /// Appends the reported packages, in groups of one licence each. A licence of one package has one line.
    pub fn push_groups(&self, text: &mut String, alloc: Global) -> Result<(), AllocError> {
        let labels = sorted_labels(alloc, self.graph, self.findings)?;
        let mut rest = labels.as_slice();
        for _ in 0..labels.len() {
            let Some((label, _)) = rest.first() else {
                break;
            };
            let label = label.as_str();
            let count = rest
                .iter()
                .take_while(|row| row.0.as_str() == label)
                .count();
            self.push_group(text, alloc, label, rest.get(..count).unwrap_or(&[]))?;
            rest = rest.get(count..).unwrap_or(&[]);
        }
        Ok(())
    }
}

/// Returns the reasons of the reported packages.
fn reasons_of(
    alloc: Global,
    graph: &Graph<'_>,
    findings: &[PackageFinding],
) -> Result<Vec<Reason>, AllocError> {
    let mut reasons = Vec::new(alloc);
    for one in findings {
        if let Some(index) = graph.order.get(one.place) {
            if let Some(described) = graph.described(*index) {
                reasons.push(Reason::of(&one.finding, described))?;
            }
        }
    }
    Ok(reasons)
}

/// Formats the number of packages for each reason, in brackets after a space. It is empty if each licence is one that
/// is not allowed.
fn format_reasons(alloc: Global, reasons: &[Reason]) -> Result<String, AllocError> {
    let mut parts = String::new(alloc);
    if reasons.iter().all(|reason| *reason == Reason::NotAllowed) {
        return Ok(parts);
    }
    for (reason, words) in &REASONS {
        let count = reasons.iter().filter(|it| **it == *reason).count();
        if count > 0 {
            let is_first = parts.is_empty();
            push_comma(&mut parts, is_first)?;
            let part = format!(in alloc; "{count} {words}")?;
            push(&mut parts, part.as_str())?;
        }
    }
    format!(in alloc; " ({parts})")
}

/// Returns the line with the number of reported packages and the number of packages that were audited.
pub fn counts_line(
    alloc: Global,
    graph: &Graph<'_>,
    findings: &[PackageFinding],
    subjects: &[Subject<'_>],
) -> Result<String, AllocError> {
    let reasons = reasons_of(alloc, graph, findings)?;
    let reasons = format_reasons(alloc, &reasons)?;
    let count = findings.len();
    let all = subjects.iter().filter(|subject| subject.is_present).count();
    format!(in alloc; "{count} of {all} packages have a licence that is not allowed{reasons}\n")
}
