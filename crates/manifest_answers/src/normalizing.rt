//! Manifests that are taken from the documents of a workspace, and what they inherit from its root.

use crate::cargo_refuses::{Rejected, rejected_by_cargo};
use crate::deep::has_deep;
use crate::dependency_rules::WorkspaceRoot;
use cargo_platform::printable_text;
use input_limits::{STDIN_PATH, strip_byte_order_mark};
use manifests::document;
use manifests::reading::{Manifest, ManifestText, ReadError};
use std::alloc::{AllocError, Global};
use std::rt::{Env, Files};
use toml::Table;
use workspaces::{Document, ManifestCache, inherits, put_inherited, root_of};

/// Returns the manifest of a document, with the lines of its keys if they are requested or a key is nested too deep.
fn manifest_of(
    alloc: Global,
    path: &str,
    read: Document,
    with_lines: bool,
) -> Result<Manifest, AllocError> {
    let Document { text, table } = read;
    let path = printable_text(alloc, path)?;
    if with_lines || has_deep(alloc, &table)? {
        let text = strip_byte_order_mark(text.as_str());
        let document = document::Document::of(alloc, table, text)?;
        return Ok(Manifest { path, document });
    }
    let document = document::Document::of_table(alloc, table);
    Ok(Manifest { path, document })
}

/// Returns the text of the manifest that is named: the one that the documents use for it, or else that of the file.
fn text_of<R: Files + Input + AllocGlobal>(
    rt: &R,
    documents: &ManifestCache,
    path: &str,
) -> Result<ManifestText, ReadError> {
    let Some(text) = documents.given_text(rt, path)? else {
        return ManifestText::read(rt, path, documents.limit);
    };
    let text = String::from_str(rt.alloc(), text)?;
    Ok(ManifestText::of(printable_text(rt.alloc(), path)?, text))
}

/// Reads and parses the manifest that is named.
fn document_read<R: Files + Input + AllocGlobal>(
    rt: &R,
    documents: &ManifestCache,
    path: &str,
) -> Result<Document, ReadError> {
    let text = text_of(rt, documents, path)?;
    let table = text.table(rt.alloc())?;
    let text = text.into_text();
    Ok(Document { text, table })
}

/// Returns the document of the manifest that is named. It is taken from the documents, if it is among them, and else
/// read.
fn document_at<R: Files + Input + AllocGlobal>(
    rt: &R,
    documents: &mut ManifestCache,
    path: &str,
) -> Result<Document, ReadError> {
    match documents.take(rt, path)? {
        Some(read) => Ok(read),
        None => document_read(rt, documents, path),
    }
}

/// Returns the manifest at a path, from the cache if it is there, and otherwise from its file. It has the lines of its
/// keys if the query needs them, or if a key is nested too deep.
///
/// Fails if the manifest cannot be read.
pub fn manifest_at<R: Files + Input + AllocGlobal>(
    rt: &R,
    documents: &mut ManifestCache,
    path: &str,
    with_lines: bool,
) -> Result<Manifest, ReadError> {
    let document = document_at(rt, documents, path)?;
    let manifest = manifest_of(rt.alloc(), path, document, with_lines)?;
    Ok(manifest)
}

/// A manifest with what it inherits in its place.
#[derive(Drop)]
pub struct NormalizedManifest {
    pub manifest: Manifest,
    /// The first thing that Cargo rejects in it, beside its keys of `target`.
    pub rejected: Option<Rejected>,
}

/// Puts what a manifest inherits from the table `workspace` of its root in its place. Returns what Cargo rejects then.
fn inherit_from(
    alloc: Global,
    document: &mut Document,
    workspace: Option<&Table>,
) -> Result<Option<Rejected>, AllocError> {
    if let Some(workspace) = workspace {
        put_inherited(alloc, &mut document.table, workspace)?;
    }
    let inheriting = WorkspaceRoot {
        is_known: true,
        workspace,
    };
    rejected_by_cargo(alloc, document, inheriting)
}

/// Puts what a manifest inherits from the root of its workspace in its place. Returns what Cargo rejects then. Standard
/// input is in no workspace that is known.
fn inherit<R: Files + Env + AllocGlobal>(
    rt: &R,
    documents: &mut ManifestCache,
    path: &str,
    document: &mut Document,
) -> Result<Option<Rejected>, AllocError> {
    let alloc = rt.alloc();
    if path == STDIN_PATH || !inherits(&document.table) {
        let inheriting = WorkspaceRoot {
            is_known: false,
            workspace: None,
        };
        return rejected_by_cargo(alloc, document, inheriting);
    }
    let root = root_of(rt, documents, path)?;
    match documents.get(rt, root.as_str())? {
        Some(root) => inherit_from(alloc, document, root.workspace()),
        None => inherit_from(alloc, document, None),
    }
}

/// Returns the manifest that is named, as `manifest_at` does, with what it inherits from the root of its workspace in
/// its place, and what Cargo rejects in it.
///
/// Fails if it can't be used.
pub fn read_normalized<R: Files + Input + Env + AllocGlobal>(
    rt: &R,
    documents: &mut ManifestCache,
    path: &str,
    with_lines: bool,
) -> Result<NormalizedManifest, ReadError> {
    let mut document = document_at(rt, documents, path)?;
    let rejected = inherit(rt, documents, path, &mut document)?;
    let manifest = manifest_of(rt.alloc(), path, document, with_lines)?;
    Ok(NormalizedManifest { manifest, rejected })
}
