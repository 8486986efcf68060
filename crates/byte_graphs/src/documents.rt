//! The result for a document: the lines of its packages, or why it has none.

ghost use Rattle.std.specs.Prelude.{◌≡◌, true, false, IfOk};
ghost use Rattle.serde_json.specs.View.{view};
ghost use Rattle.byte_graphs.specs.Documents.{HasDeepCondition, HasDeepDependency, HasDeepKind};
ghost use Rattle.byte_graphs.specs.Inside.Answering.{IsAnswer, IsAnswerFor};

use byte_answers::is_too_deep;
use cargo_metadata::graphs::link;
use cargo_metadata::{Dependency, Metadata, Node, read};
use graph_lines::package_lines;
use graph_queries::refused::{document_reason, graph_reason};
use known_targets::KnownTarget;
use serde_json::Value;
use std::alloc::{AllocError, Global};

/// The result for a document.
#[derive(Drop)]
pub enum Answer {
    /// A line of JSON for each package.
    Lines(String),
    /// The reason why the document cannot be used.
    Reason(String),
    TooDeep,
}

/// Returns whether a condition of a dependency is too deep.
fn has_deep_kind(dependency: &Dependency<'_>) -> bool
    ensures deep { result ≡ true → HasDeepKind dependency.now }
    ensures shallow { result ≡ false → HasDeepKind dependency.now → ⊥ }
{
    'kinds: for i in 0..dependency.kinds.len() {
        if let Some(condition) = dependency.kinds[i].condition {
            if is_too_deep(condition) {
                return true;
            }
        }
    }
    false
}

/// Returns whether a condition of a node is too deep.
fn has_deep_dependency(node: &Node<'_>) -> bool
    ensures deep { result ≡ true → HasDeepDependency node.now }
    ensures shallow { result ≡ false → HasDeepDependency node.now → ⊥ }
{
    'dependencies: for i in 0..node.dependencies.len() {
        if has_deep_kind(&node.dependencies[i]) {
            return true;
        }
    }
    false
}

/// Returns whether a condition of the document is too deep.
fn has_deep_condition(metadata: &Metadata<'_>) -> bool
    ensures deep { result ≡ true → HasDeepCondition metadata.now }
    ensures shallow { result ≡ false → HasDeepCondition metadata.now → ⊥ }
{
    'nodes: for i in 0..metadata.nodes.len() {
        if has_deep_dependency(&metadata.nodes[i]) {
            return true;
        }
    }
    false
}

/// Returns the result for a document that was parsed as JSON.
fn answer_for_json(
    alloc: Global,
    document: &Value,
    host: Option<KnownTarget>,
) -> Result<Answer, AllocError>
    ensures { IfOk result (λ answer. IsAnswerFor (view document.now) answer) }
{
    let metadata = match read(alloc, document) {
        Ok(metadata) => metadata,
        Err(refusal) => {
            let reason = document_reason(alloc, document, &refusal)?;
            return Ok(Answer::Reason(reason));
        }
    };
    if has_deep_condition(&metadata) {
        return Ok(Answer::TooDeep);
    }
    match link(alloc, &metadata) {
        Ok(linked) => {
            let lines = package_lines(alloc, metadata, linked, host)?;
            Ok(Answer::Lines(lines))
        }
        Err(refusal) => {
            let reason = graph_reason(alloc, &metadata, &refusal)?;
            Ok(Answer::Reason(reason))
        }
    }
}

/// Returns the result for the text of a document. Fails if an allocation fails.
pub fn answer_for(
    alloc: Global,
    text: &str,
    host: Option<KnownTarget>,
) -> Result<Answer, AllocError>
    ensures { IfOk result (λ answer. IsAnswer text.now answer) }
{
    match Value::from_str(alloc, text) {
        Ok(document) => answer_for_json(alloc, &document, host),
        Err(error) => {
            if error.is_memory() {
                return Err(AllocError);
            }
            let reason = format!(in alloc; "no JSON: {error}")?;
            Ok(Answer::Reason(reason))
        }
    }
}
