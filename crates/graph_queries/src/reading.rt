//! The graph of a document, which is parsed, read and linked, and rejected if no answer could be right.

use crate::graph::Graph;
use crate::incomplete::filtered_reason;
use crate::query::GraphQuery;
use crate::refused::{depth_reason, document_reason, graph_reason};
use crate::resolving::{ResolvedFeatures, resolution_of};
use crate::unsupported::unsupported_reason;
use cargo_metadata::fields::text_at;
use cargo_metadata::graphs::{Linked, link};
use cargo_metadata::{Metadata, read};
use cargo_platform::printable_text;
use declared_features::{Declarations, DeclarationsError, DeclaredGraph};
use key_answers::answer::{QueryError, file_error};
use key_answers::printing::format_name;
use serde_json::{Error, Value};
use std::alloc::{AllocError, Global};

/// The reason why a document has no graph.
#[derive(Drop)]
pub enum Rejected {
    /// The document is invalid or unsupported, for this reason.
    Document(String),
    /// Arguments or another file are invalid, or memory is refused.
    Refused(QueryError),
}

impl From<AllocError> for Rejected {
    fn from(refused: AllocError) -> Rejected {
        Rejected::Refused(QueryError::Memory(refused))
    }
}

impl From<QueryError> for Rejected {
    fn from(refusal: QueryError) -> Rejected {
        Rejected::Refused(refusal)
    }
}

impl Rejected {
    /// Returns the refusal with its whole message. `file` is the name of the document's file, as it is displayed.
    pub fn with_whole_message(self, alloc: Global, file: &str) -> QueryError {
        match self {
            Rejected::Document(reason) => file_error(alloc, file, reason.as_str()),
            Rejected::Refused(refusal) => refusal,
        }
    }
}

/// Returns the message for a text that is not JSON.
fn no_json(alloc: Global, error: &Error) -> Result<String, AllocError> {
    let reason = format!(in alloc; "{error}")?;
    let reason = printable_text(alloc, reason.as_str())?;
    format!(in alloc; "no JSON: {reason}")
}

/// Parses a text as JSON. Rejects a text that is not JSON, and fails if memory is refused.
pub fn document_of(alloc: Global, text: &str) -> Result<Value, Rejected> {
    match Value::from_str(alloc, text) {
        Ok(document) => Ok(document),
        Err(error) => Err(Rejected::Document(no_json(alloc, &error)?)),
    }
}

/// The output of `cargo metadata`, parsed as JSON, with the metadata that was read from it and the linked graph.
#[derive(Drop)]
pub struct GraphDocument<'a> {
    pub document: &'a Value,
    pub metadata: Metadata<'a>,
    pub linked: Linked<'a>,
    /// The declarations of the packages, or why they cannot be read. No answer without features needs them.
    pub declared: Result<Declarations<'a>, DeclarationsError>,
}

/// Keeps as roots only the members with one of these names, or all if there are no names. Fails with a name that no
/// member has.
fn choose_roots<'a>(linked: &mut Linked<'_>, names: &[&'a str]) -> Result<(), &'a str> {
    if names.is_empty() {
        return Ok(());
    }
    for name in names {
        let mut is_known = false;
        for i in 0..linked.packages.len() {
            if let Some(described) = linked.described.get(i) {
                is_known |= linked.packages[i].is_root && described.name == *name;
            }
        }
        if !is_known {
            return Err(name);
        }
    }
    for i in 0..linked.packages.len() {
        let is_named = match linked.described.get(i) {
            Some(described) => names.contains(&described.name),
            None => false,
        };
        if let Some(unit) = linked.packages.get_mut(i) {
            unit.is_root &= is_named;
        }
    }
    Ok(())
}

/// Reads the metadata of a document, and rejects it if a condition is nested too deep, or if no answer takes into
/// account what it has.
fn metadata_of<'a>(alloc: Global, document: &'a Value) -> Result<Metadata<'a>, Rejected> {
    let metadata = match read(alloc, document) {
        Ok(metadata) => metadata,
        Err(refusal) => {
            let reason = document_reason(alloc, document, &refusal)?;
            return Err(Rejected::Document(reason));
        }
    };
    if let Some(reason) = depth_reason(alloc, &metadata)? {
        return Err(Rejected::Document(reason));
    }
    match unsupported_reason(alloc, document)? {
        Some(reason) => Err(Rejected::Document(reason)),
        None => Ok(metadata),
    }
}

/// Returns the message for a name that no member of the workspace has.
fn no_member(alloc: Global, name: &str) -> Result<String, AllocError> {
    let name = format_name(alloc, name)?;
    format!(in alloc; "no member of the workspace is named {name}")
}

/// Links the graph of a document, from the selected roots.
fn linked_from<'a>(
    alloc: Global,
    metadata: &Metadata<'a>,
    roots: &[&str],
) -> Result<Linked<'a>, Rejected> {
    let mut linked = match link(alloc, metadata) {
        Ok(linked) => linked,
        Err(refusal) => {
            let reason = graph_reason(alloc, metadata, &refusal)?;
            return Err(Rejected::Document(reason));
        }
    };
    match choose_roots(&mut linked, roots) {
        Ok(()) => Ok(linked),
        Err(name) => Err(Rejected::Document(no_member(alloc, name)?)),
    }
}

impl<'a> GraphDocument<'a> {
    /// Reads a document that was parsed as JSON, and links it from the members with these names, or from all if there
    /// are no names.
    ///
    /// # Errors
    ///
    /// Rejects a document that is not the output of `cargo metadata`, has a condition that is nested too deep, or has
    /// an artifact dependency; one whose ids and conditions form no graph; one that `--filter-platform` made; and a
    /// name that no member has. Fails if memory is refused.
    pub fn of(
        alloc: Global,
        document: &'a Value,
        roots: &[&str],
    ) -> Result<GraphDocument<'a>, Rejected> {
        let metadata = metadata_of(alloc, document)?;
        let linked = linked_from(alloc, &metadata, roots)?;
        let declared = Declarations::of(alloc, document, &metadata);
        if let Err(DeclarationsError::Memory(_)) = &declared {
            return Err(Rejected::from(AllocError));
        }
        let input = GraphDocument {
            document,
            metadata,
            linked,
            declared,
        };
        match input.filtered_reason(alloc)? {
            Some(reason) => Err(Rejected::Document(reason)),
            None => Ok(input),
        }
    }

    /// Returns why the document is rejected, if `--filter-platform` made it. A document whose packages do not say what
    /// they declare passes.
    fn filtered_reason(&self, alloc: Global) -> Result<Option<String>, AllocError> {
        match &self.declared {
            Ok(declared) => filtered_reason(alloc, &self.with(declared)),
            Err(_) => Ok(None),
        }
    }

    /// Returns the graph with what its packages declare.
    fn with<'m>(&'m self, declared: &'m Declarations<'a>) -> DeclaredGraph<'m, 'a> {
        DeclaredGraph {
            document: self.document,
            metadata: &self.metadata,
            linked: &self.linked,
            declared,
        }
    }

    /// Returns the graph with what its packages declare. Rejects a document that does not say it.
    pub fn with_declarations(&self, alloc: Global) -> Result<DeclaredGraph<'_, 'a>, Rejected> {
        match &self.declared {
            Ok(declared) => Ok(self.with(declared)),
            Err(refusal) => Err(Rejected::Document(format!(in alloc; "{refusal}")?)),
        }
    }
}

/// Returns the graph of a document, with the targets of its packages and, if that is requested, its resolved features.
///
/// # Errors
///
/// Rejects what [`resolution_of`] rejects, if features are requested. Fails if memory is refused.
pub fn graph_of<'a>(
    alloc: Global,
    input: GraphDocument<'a>,
    query: &GraphQuery<'_>,
) -> Result<Graph<'a>, Rejected> {
    let resolution = resolution_of(alloc, &input, query)?;
    let GraphDocument {
        document,
        metadata,
        linked,
        declared,
    } = input;
    let mut graph = Graph::of(alloc, metadata, linked, query)?;
    graph.workspace = text_at(document, "workspace_root");
    if let (Some(resolution), Ok(declared)) = (resolution, declared) {
        graph.features = Some(ResolvedFeatures {
            declarations: declared,
            resolution,
        });
    }
    Ok(graph)
}

/// Returns the graph of a document that was parsed as JSON, for a query.
///
/// # Errors
///
/// As of [`GraphDocument::of`] and [`graph_of`].
pub fn graph_of_json<'a>(
    alloc: Global,
    document: &'a Value,
    query: &GraphQuery<'_>,
) -> Result<Graph<'a>, Rejected> {
    let input = GraphDocument::of(alloc, document, query.packages)?;
    graph_of(alloc, input, query)
}
