//! A policy, as it was read.

use crate::graph_table::read_graph;
use crate::keys::TableKind;
use crate::licence_table::read_licences;
use crate::reader::Reader;
use diagnostics::{
    Diagnostic, DiagnosticLevel, EmittedDiagnostic, diagnostic_of_failure, diagnostic_of_syntax,
    push_rendered,
};
use input_limits::strip_byte_order_mark;
use licence_audits::{Exception, PackageSpec};
use manifests::key_locations::Location;
use manifests::reading::{ManifestText, ReadError};
use spdx_expressions::Licence;
use std::alloc::{AllocError, Global};

/// The level of the diagnostic on an entry of a policy that no package needs.
#[derive(Clone, Copy, Debug, PartialEq, Eq, Drop)]
pub enum UnusedLevel {
    Allow,
    Warn,
    Deny,
}

/// The table `[graph]`: what is audited.
#[derive(Drop)]
pub struct GraphTable {
    /// The names of the targets, with their places. If there are none, all targets are audited.
    pub targets: Vec<(String, Option<Location>)>,
    /// The features of the roots.
    pub features: Vec<String>,
    pub all_features: bool,
    pub no_default_features: bool,
    /// The packages that are not in the graph.
    pub excluded: Vec<PackageSpec>,
    /// True if dev-dependencies are not in the graph.
    pub excludes_dev: bool,
}

/// The table `[licenses]`.
#[derive(Drop)]
pub struct LicenceTable {
    pub allowed: Vec<Licence>,
    /// The places of the allowed licences.
    pub allowed_at: Vec<Option<Location>>,
    pub exceptions: Vec<Exception>,
    /// The places of the exceptions.
    pub exceptions_at: Vec<Option<Location>>,
    /// True if private packages are not audited.
    pub ignores_private: bool,
    /// True if dev-dependencies are audited.
    pub includes_dev: bool,
    pub unused_licences: UnusedLevel,
    pub unused_exceptions: UnusedLevel,
}

/// The file of a policy.
#[derive(Drop)]
pub struct PolicySource {
    /// The path, as it is displayed.
    path: String,
    /// The text, without a byte order mark.
    text: String,
}

/// A policy.
#[derive(Drop)]
pub struct Policy {
    pub graph: GraphTable,
    pub licences: LicenceTable,
    pub source: PolicySource,
    /// The diagnostics on the policy. It is invalid if one of these is an error.
    pub diagnostics: Vec<Diagnostic>,
}

/// Returns a policy without entries.
fn empty(alloc: Global, source: PolicySource) -> Policy {
    let graph = GraphTable {
        targets: Vec::new(alloc),
        features: Vec::new(alloc),
        all_features: false,
        no_default_features: false,
        excluded: Vec::new(alloc),
        excludes_dev: false,
    };
    let licences = LicenceTable {
        allowed: Vec::new(alloc),
        allowed_at: Vec::new(alloc),
        exceptions: Vec::new(alloc),
        exceptions_at: Vec::new(alloc),
        ignores_private: false,
        includes_dev: false,
        unused_licences: UnusedLevel::Warn,
        unused_exceptions: UnusedLevel::Warn,
    };
    Policy {
        graph,
        licences,
        source,
        diagnostics: Vec::new(alloc),
    }
}

impl PolicySource {
    /// Returns a diagnostic on the policy as rustc prints it for people. Fails if an allocation fails.
    pub fn rendered(&self, alloc: Global, diagnostic: &Diagnostic) -> Result<String, AllocError> {
        let mut output = String::new(alloc);
        let reported = EmittedDiagnostic {
            diagnostic,
            level: diagnostic.level,
            path: self.path.as_str(),
            text: self.text.as_str(),
        };
        push_rendered(&mut output, alloc, &reported, false)?;
        Ok(output)
    }

    /// Returns a diagnostic with this message, at this place if it is known, as rustc prints it. Fails if an allocation
    /// fails.
    pub fn render(
        &self,
        alloc: Global,
        level: DiagnosticLevel,
        at: Option<Location>,
        message: String,
    ) -> Result<String, AllocError> {
        let mut diagnostic = diagnostic_of_failure(alloc, message, at)?;
        diagnostic.level = level;
        self.rendered(alloc, &diagnostic)
    }
}

impl Policy {
    /// Reads a policy from the text of a `deny.toml`. `path` is its path, as it is displayed. Errors in the policy are
    /// diagnostics.
    ///
    /// # Errors
    ///
    /// Fails only if an allocation fails.
    pub fn read(alloc: Global, path: &str, text: &str) -> Result<Policy, AllocError> {
        let text = strip_byte_order_mark(text);
        let source = PolicySource {
            path: String::from_str(alloc, path)?,
            text: String::from_str(alloc, text)?,
        };
        let mut policy = empty(alloc, source);
        let path = String::from_str(alloc, path)?;
        let copy = String::from_str(alloc, text)?;
        let table = match ManifestText::of(path, copy).table(alloc) {
            Ok(table) => table,
            Err(ReadError::Syntax(error)) => {
                policy
                    .diagnostics
                    .push(diagnostic_of_syntax(alloc, &error)?)?;
                return Ok(policy);
            }
            Err(_) => return Err(AllocError),
        };
        let mut reader = Reader::new(alloc, text)?;
        reader.check_keys(&table, TableKind::Top, &[])?;
        if let Some(graph) = reader.table(&table, &["graph"])? {
            read_graph(&mut policy.graph, &mut reader, graph)?;
        }
        if let Some(licences) = reader.table(&table, &["licenses"])? {
            read_licences(&mut policy.licences, &mut reader, licences)?;
        }
        policy.diagnostics = reader.finish()?;
        Ok(policy)
    }

    /// Returns whether the policy has no errors.
    pub fn is_valid(&self) -> bool {
        !self
            .diagnostics
            .iter()
            .any(|diagnostic| diagnostic.level == DiagnosticLevel::Error)
    }

    /// Returns the diagnostics as rustc prints them for people. Fails if an allocation fails.
    pub fn rendered(&self, alloc: Global) -> Result<String, AllocError> {
        let mut output = String::new(alloc);
        for diagnostic in &self.diagnostics {
            let text = self.source.rendered(alloc, diagnostic)?;
            output.push_str(text.as_str())?;
        }
        Ok(output)
    }
}
