//! Queries on several manifests, one after the other.

ghost use Rattle.toml.specs.View.{table_view};
ghost use Rattle.manifests.specs.Tables.{target_of};
ghost use Rattle.manifest_answers.specs.Deep.{HasNoDeepKey};

use crate::cargo_refuses::Rejected;
use crate::deep::first_too_deep_key;
use crate::normalizing::{NormalizedManifest, read_normalized};
use input_limits::InputError;
use key_answers::answer::{Answer, Status};
use manifests::reading::Manifest;
use std::alloc::{AllocError, Global};
use std::rt::{Env, Files};
use workspaces::ManifestCache;

/// A question about a manifest.
pub trait ManifestQuery {
    /// Returns whether the query needs the lines of keys.
    fn asks_for_lines(&self) -> bool;

    /// Adds the answer on a manifest whose keys are not nested too deeply. Cargo may reject something beside its keys.
    fn add_answer(
        &mut self,
        alloc: Global,
        manifest: &Manifest,
        rejected: &Option<Rejected>,
        whole: &mut Answer,
    ) -> Result<(), AllocError>
        requires { HasNoDeepKey (target_of (table_view manifest.now.document.table)) };

    /// Returns the answer on a manifest that can't be used, with the reason. `path` is as it is displayed, and `line`
    /// is the message for people.
    fn refuse(
        &mut self,
        alloc: Global,
        path: &str,
        reason: &str,
        line: &str,
    ) -> Result<Answer, AllocError>;
}

/// Returns the answers on these manifests, in their order. Manifests in the cache are not read again. A manifest that
/// can't be used, for example because it is larger than the limit, does not stop the others.
pub fn answer_each<R: Files + Input + Env + AllocGlobal, Q: ManifestQuery>(
    rt: &R,
    documents: &mut ManifestCache,
    paths: &[&str],
    question: &mut Q,
) -> Result<Answer, AllocError> {
    let alloc = rt.alloc();
    let mut whole = Answer::of(alloc, String::new(alloc), Status::Fine);
    for path in paths {
        add_answer_on(rt, documents, path, question, &mut whole)?;
    }
    Ok(whole)
}

/// Adds the answer on a manifest that is read.
fn add_answer_on_read<Q: ManifestQuery>(
    alloc: Global,
    taken: &NormalizedManifest,
    question: &mut Q,
    whole: &mut Answer,
) -> Result<(), AllocError> {
    let manifest = &taken.manifest;
    match first_too_deep_key(alloc, manifest)? {
        Some(deep) => {
            let line = deep.line(alloc)?;
            let reason = deep.reason.as_str();
            whole.append(question.refuse(alloc, manifest.path.as_str(), reason, line.as_str())?)
        }
        None => question.add_answer(alloc, manifest, &taken.rejected, whole),
    }
}

/// Returns the answer on a manifest that can't be used.
fn answer_on_unusable<Q: ManifestQuery>(
    alloc: Global,
    path: &str,
    unusable: &InputError,
    question: &mut Q,
) -> Result<Answer, AllocError> {
    let line = unusable.line(alloc)?;
    let file = unusable.file.as_ref().map(|file: &String| file.as_str());
    let reason = unusable.reason.as_str();
    question.refuse(alloc, file.unwrap_or(path), reason, line.as_str())
}

/// Adds the answer on the manifest that is named.
fn add_answer_on<R: Files + Input + Env + AllocGlobal, Q: ManifestQuery>(
    rt: &R,
    documents: &mut ManifestCache,
    path: &str,
    question: &mut Q,
    whole: &mut Answer,
) -> Result<(), AllocError> {
    let alloc = rt.alloc();
    match read_normalized(rt, documents, path, question.asks_for_lines()) {
        Ok(taken) => add_answer_on_read(alloc, &taken, question, whole),
        Err(error) => {
            let unusable = error.into_input_error(alloc)?;
            whole.append(answer_on_unusable(alloc, path, &unusable, question)?)
        }
    }
}
