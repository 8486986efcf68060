//! The lines of JSON of an audit.

use crate::dependency_paths::PathPackages;
use crate::faults::fault_message;
use crate::graph::Graph;
use crate::licence_report::{LicenceReport, Reason};
use crate::packages::name_and_version;
use key_answers::json_lines;
use key_answers::targets::TargetList;
use licence_audits::Finding;
use serde::Serialize;
use std::alloc::{AllocError, Global};

/// A line of `graph --allow --json`: a package whose licence is not allowed.
#[derive(Drop, Serialize)]
struct LicenceLine<'a> {
    /// The name and the version of the package.
    package: String,
    id: &'a str,
    /// The licence expression of the package.
    license: Option<&'a str>,
    /// If `finding` is `not-allowed`: the licence expression in canonical form.
    expression: Option<String>,
    /// The path of the licence file of the package, in its folder.
    license_file: Option<&'a str>,
    /// The number of targets in `at`.
    targets: usize,
    /// The selected targets on which the package is in the build.
    at: TargetList<'a>,
    /// The ids of the packages on a shortest dependency path from a root to this package, on the first of these
    /// targets. Null if features are resolved, and they do not use this path.
    path: Option<Vec<&'a str>>,
    /// The sides for which the package is built. One of `target`, `host` and `both`.
    side: Option<&'static str>,
    /// One of `not-allowed`, `missing`, `file` and `refused`.
    finding: &'static str,
    /// If `finding` is `refused`: what was expected, and what was found.
    message: Option<String>,
    /// If `finding` is `refused`: the span of the error in the expression, as its first byte and the byte after its
    /// last one.
    span: Option<(usize, usize)>,
}

/// The message of a refused licence, and the span of its error in bytes.
type Fault = (Option<String>, Option<(usize, usize)>);

/// Returns the message and the span of a refused licence. Both are `None` for other findings.
fn fault_of(alloc: Global, finding: &Finding) -> Result<Fault, AllocError> {
    match finding {
        Finding::Refused(error) => {
            let message = fault_message(alloc, error)?;
            Ok((Some(message), Some((error.span.start, error.span.end))))
        }
        Finding::NotAllowed(_) | Finding::Missing => Ok((None, None)),
    }
}

/// Returns the ids of the packages on a path, or `None` if no path is known.
fn ids_of<'a>(
    alloc: Global,
    graph: &Graph<'a>,
    path: &PathPackages,
) -> Result<Option<Vec<&'a str>>, AllocError> {
    if path.is_empty() {
        return Ok(None);
    }
    let mut ids = Vec::new(alloc);
    for index in path {
        if let Some(described) = graph.described(*index) {
            ids.push(described.id)?;
        }
    }
    Ok(Some(ids))
}

impl<'r, 'a> LicenceReport<'r, 'a> {
    /// Appends the line of a reported package.
    fn push_object(
        &self,
        text: &mut String,
        alloc: Global,
        index: usize,
        finding: &Finding,
    ) -> Result<(), AllocError> {
        let graph = self.graph;
        let query = self.query;
        let (Some(described), Some(path)) = (graph.described(index), self.paths.get(index)) else {
            return Ok(());
        };
        let built = graph.built(index, query);
        let targets = built.targets();
        let (message, span) = fault_of(alloc, finding)?;
        let expression = match finding {
            Finding::NotAllowed(expression) => Some(format!(in alloc; "{expression}")?),
            Finding::Missing | Finding::Refused(_) => None,
        };
        let line = LicenceLine {
            package: name_and_version(alloc, described)?,
            id: described.id,
            license: described.license,
            expression,
            license_file: described.license_file,
            targets: query.count_of(targets),
            at: query.targets_for_json(alloc, targets)?,
            path: ids_of(alloc, graph, path)?,
            side: built.sides().word(),
            finding: Reason::of(finding, described).word(),
            message,
            span,
        };
        json_lines::push_spaced_line(text, alloc, &line)
    }

    /// Appends a line for each reported package. Fails if an allocation fails.
    pub fn push_objects(&self, text: &mut String, alloc: Global) -> Result<(), AllocError> {
        for one in self.findings {
            if let Some(index) = self.graph.order.get(one.place) {
                self.push_object(text, alloc, *index, &one.finding)?;
            }
        }
        Ok(())
    }
}
