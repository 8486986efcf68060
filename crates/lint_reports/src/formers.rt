//! Diagnostics on names that rustc knew until some release.

use crate::settings::Settings;
use cargo_platform::{Cfg, Platform, ReadError, values_of};
use former_names::{
    Release, RemovalReleases, Verdict, current_name, former_fact, former_target, has_former_value,
};
use manifest_lints_findings::{Children, Level, Lint, Site, TableDiagnostic};
use manifests::{ExpectedCfgs, TargetValue, target_keys};
use predicate_classes::key_spans::spans_of;
use std::alloc::{AllocError, Global};
use toml::Table;
use toml_spans::Span;

/// The settings that determine which rustc builds a project.
#[derive(Clone, Copy, Drop)]
pub struct ToolchainSettings<'a> {
    pub of_workspace: &'a Settings,
    pub of_package: &'a Settings,
    /// The `rust-version` of the package.
    pub rust_version: Option<Release>,
    /// The names of targets that are known in addition.
    pub targets: &'a [String],
}

/// Returns whether one of the texts is `wanted`.
fn has(texts: &[String], wanted: &str) -> bool {
    for text in texts {
        if text.as_str() == wanted {
            return true;
        }
    }
    false
}

impl<'a> ToolchainSettings<'a> {
    /// Returns the rustc that builds the project: that of the package, or else that of the workspace.
    fn rustc(&self) -> Option<Release> {
        match self.of_package.rustc {
            Some(release) => Some(release),
            None => self.of_workspace.rustc,
        }
    }

    /// Returns whether a target of this name is known in addition, by the settings of the package or the workspace, or
    /// by `targets`.
    fn knows_target(&self, name: &str) -> bool {
        self.of_package.knows_target(name)
            || self.of_workspace.knows_target(name)
            || has(self.targets, name)
    }

    /// Returns the notes that say why no rustc that builds the project knows a name.
    fn reasons(&self, alloc: Global, bounds: RemovalReleases) -> Result<Children, AllocError> {
        if bounds.is_removed_in(self.rustc()) {
            return reasons(alloc, "the rustc of this project", self.rustc());
        }
        reasons(alloc, "rust-version", self.rust_version)
    }
}

/// Returns the note that something is this release, if there is one.
fn reasons(alloc: Global, subject: &str, release: Option<Release>) -> Result<Children, AllocError> {
    match release {
        Some(release) => Children::of_note(alloc, format!(in alloc; "{subject} is {release}")?),
        None => Ok(Children::none(alloc)),
    }
}

/// Formats until which release rustc knew a name.
fn until(alloc: Global, name: &str, bounds: RemovalReleases) -> Result<String, AllocError> {
    let RemovalReleases { last, gone } = bounds;
    if bounds.is_exact() {
        format!(in alloc; "rustc knew `{name}` until {last}")
    } else {
        format!(in alloc; "rustc {last} knew `{name}`, and {gone} does not")
    }
}

/// Returns the diagnostic on a name in a key that rustc knew until some release, or `None` if the project's rustc knows
/// it.
fn former(
    alloc: Global,
    key: &str,
    name: &str,
    bounds: RemovalReleases,
    project: &ToolchainSettings<'_>,
) -> Result<Option<TableDiagnostic>, AllocError> {
    let verdict = bounds.verdict(project.rustc(), project.rust_version);
    if verdict == Verdict::Known {
        return Ok(None);
    }
    let is_gone = verdict == Verdict::GoneForAll;
    let children = if is_gone {
        project.reasons(alloc, bounds)?
    } else {
        Children::none(alloc)
    };
    Ok(Some(TableDiagnostic {
        lint: Lint::Former,
        level: if is_gone { Level::Warning } else { Level::Note },
        subject: String::from_str(alloc, "target")?,
        key: Some(String::from_str(alloc, key)?),
        site: Site::InKey(None),
        message: until(alloc, name, bounds)?,
        children,
        suggestion: None,
    }))
}

/// Returns the diagnostic on the name of a target that rustc knew until some release.
fn former_of_target(
    alloc: Global,
    name: &str,
    bounds: RemovalReleases,
    project: &ToolchainSettings<'_>,
) -> Result<Option<TableDiagnostic>, AllocError> {
    let Some(mut wrong) = former(alloc, name, name, bounds, project)? else {
        return Ok(None);
    };
    if let Some(now) = current_name(name) {
        let help = format!(in alloc; "write `{now}`, the name of the target now")?;
        wrong.children.helps.push(help)?;
        wrong.suggestion = Some(now);
    }
    Ok(Some(wrong))
}

/// A fact that targets had until some release, and the releases between which it was removed.
#[derive(Clone, Copy, Drop)]
struct FormerFact<'a> {
    key: &'a str,
    value: &'a str,
    bounds: RemovalReleases,
    /// The span in the key, in bytes.
    span: Option<Span>,
}

impl<'a> FormerFact<'a> {
    /// Returns a fact as a former one, if it is one.
    fn of(fact: &'a Cfg, span: Option<Span>) -> Option<FormerFact<'a>> {
        let bounds = former_fact(fact)?;
        match fact {
            Cfg::KeyPair(key, value) => Some(FormerFact {
                key: key.as_str(),
                value: value.as_str(),
                bounds,
                span,
            }),
            Cfg::Name(_) => None,
        }
    }

    /// Returns whether the list contains the same fact.
    fn is_among(&self, facts: &[FormerFact<'_>]) -> bool {
        for other in facts {
            if other.key == self.key && other.value == self.value {
                return true;
            }
        }
        false
    }

    /// Returns the diagnostic on the fact in a key.
    fn diagnostic(
        &self,
        alloc: Global,
        key: &str,
        project: &ToolchainSettings<'_>,
    ) -> Result<Option<TableDiagnostic>, AllocError> {
        let name = self.key;
        let value = self.value;
        let fact = format!(in alloc; "{name} = \"{value}\"")?;
        let Some(mut wrong) = former(alloc, key, fact.as_str(), self.bounds, project)? else {
            return Ok(None);
        };
        wrong.site = Site::InKey(self.span);
        Ok(Some(wrong))
    }

    /// Returns the fact as `rustc --print cfg` printed it.
    fn printed(&self, alloc: Global) -> Result<String, AllocError> {
        let name = self.key;
        let value = self.value;
        format!(in alloc; "{name}=\"{value}\"")
    }
}

/// The names in a manifest that rustc knew until some release.
#[derive(Drop)]
pub struct FormerNames {
    /// The diagnostics on these names.
    pub found: Vec<TableDiagnostic>,
    /// The facts among them, as `rustc --print cfg` printed them.
    pub facts: Vec<String>,
    /// The keys among them that are names of targets.
    targets: Vec<String>,
}

/// Returns the facts of a key that targets had until some release and that the manifest does not declare, each once.
/// `spans` are the spans of the facts in the key.
fn formers_among<'a>(
    alloc: Global,
    values: &[&'a Cfg],
    spans: &[Span],
    declared: &ExpectedCfgs<'_>,
) -> Result<Vec<FormerFact<'a>>, AllocError> {
    let mut facts: Vec<FormerFact<'a>> = Vec::new(alloc);
    for (index, value) in values.iter().enumerate() {
        if let Some(fact) = FormerFact::of(value, spans.get(index).copied()) {
            if !fact.is_among(&facts) && !declared.declares(value) {
                facts.push(fact)?;
            }
        }
    }
    Ok(facts)
}

/// Returns whether a key may contain a name that rustc knew until some release. The key is not parsed for that, since
/// most keys contain no such name.
fn may_have(key: &str) -> bool {
    former_target(key).is_some() || has_former_value(key)
}

impl FormerNames {
    /// Adds a fact that occurs in a key.
    fn add_fact(
        &mut self,
        alloc: Global,
        key: &str,
        fact: &FormerFact<'_>,
        project: &ToolchainSettings<'_>,
    ) -> Result<(), AllocError> {
        let printed = fact.printed(alloc)?;
        if !has(&self.facts, printed.as_str()) {
            self.facts.push(printed)?;
        }
        if let Some(wrong) = fact.diagnostic(alloc, key, project)? {
            self.found.push(wrong)?;
        }
        Ok(())
    }

    /// Adds a key that is the name of a target.
    fn add_target(
        &mut self,
        alloc: Global,
        name: &str,
        bounds: RemovalReleases,
        project: &ToolchainSettings<'_>,
    ) -> Result<(), AllocError> {
        if project.knows_target(name) {
            return Ok(());
        }
        self.targets.push(String::from_str(alloc, name)?)?;
        if let Some(wrong) = former_of_target(alloc, name, bounds, project)? {
            self.found.push(wrong)?;
        }
        Ok(())
    }

    /// Adds the names in a key. A key that is not a condition adds none.
    fn add_key(
        &mut self,
        alloc: Global,
        key: &str,
        declared: &ExpectedCfgs<'_>,
        project: &ToolchainSettings<'_>,
    ) -> Result<(), AllocError> {
        if let Some(bounds) = former_target(key) {
            return self.add_target(alloc, key, bounds, project);
        }
        let condition = match Platform::from_str(alloc, key) {
            Ok(condition) => condition,
            Err(ReadError::Parse(_)) => return Ok(()),
            Err(ReadError::Memory(refused)) => return Err(refused),
        };
        let values = values_of(alloc, &condition)?;
        let spans = spans_of(alloc, key)?;
        for fact in &formers_among(alloc, &values, &spans, declared)? {
            self.add_fact(alloc, key, fact, project)?;
        }
        Ok(())
    }

    /// Returns the names in the keys of a manifest that rustc knew until some release, except facts that the manifest
    /// declares and targets that the project knows. Fails if memory is refused.
    pub fn of(
        alloc: Global,
        manifest: &Table,
        project: &ToolchainSettings<'_>,
    ) -> Result<FormerNames, AllocError> {
        let mut formers = FormerNames {
            found: Vec::new(alloc),
            facts: Vec::new(alloc),
            targets: Vec::new(alloc),
        };
        let TargetValue::Keys(mut keys) = target_keys(alloc, manifest)? else {
            return Ok(formers);
        };
        keys.retain(|key| may_have(key.key));
        if keys.is_empty() {
            return Ok(formers);
        }
        let declared = ExpectedCfgs::of(alloc, manifest)?;
        for key in &keys {
            formers.add_key(alloc, key.key, &declared, project)?;
        }
        Ok(formers)
    }

    /// Returns whether a key is one of these names, and the name of a target.
    pub fn has_target(&self, key: &str) -> bool {
        has(&self.targets, key)
    }
}
