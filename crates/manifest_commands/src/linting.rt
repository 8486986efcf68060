//! `lint`: the diagnostics on manifests and configurations.

mod loading;

use crate::declaring::declare;
use crate::other_rustc::{OtherRustc, add_declared_facts, former_targets, replace_diagnostics};
use crate::project_targets::ManifestFile;
use crate::roots::{Root, is_unneeded};
use cargo_configuration::{
    configuration_beside, explain_unsupported, is_configuration, manifest_beside,
    manifest_with_targets,
};
use cargo_platform::{printable_excerpt, printable_text};
use diagnostics::{
    Diagnostic, DiagnosticLevel, EmittedDiagnostic, Rule, RuleInput, level_after_all, status_of,
};
use input_limits::{InputError, strip_byte_order_mark};
use key_answers::answer::{Answer, Status};
use lint_fixes::{FixOptions, Fixes, fix_file};
use lint_reports::{
    Counts, FormerNames, Printer, Settings, Style, ToolchainSettings, diagnostic_of,
    diagnostic_of_fault, diagnostic_of_misplaced, diagnostic_of_unneeded, wrong_fields,
};
use loading::{load_configuration, load_manifest, report_without_place};
use manifest_lints::{Finding, KeyLint, KnownFacts, Report, lint};
use manifest_lints_findings::{TableDiagnostic, table_diagnostics};
use manifests::key_locations::SourceMap;
use manifests::reading::Manifest;
use std::alloc::{AllocError, Global};
use std::mem;
use std::rt::{Env, Files};
use toml::Table;
use workspaces::{ManifestCache, simplified_path};

/// The options of `lint`.
#[derive(Drop)]
pub struct LintOptions {
    pub style: Style,
    /// The version of the program.
    pub version: String,
    /// The rules of the options `--allow`, `--warn` and `--deny`.
    pub rules: Vec<Rule>,
    /// True if each manifest without a key is named.
    pub is_verbose: bool,
    /// True if there is no summary.
    pub is_quiet: bool,
    /// The least level of diagnostics that make the run fail. With `None`, none does.
    pub fails_from: Option<DiagnosticLevel>,
    /// True if no package is left out.
    pub is_whole: bool,
    /// The rustc whose targets and facts count instead of the built-in ones.
    pub other: Option<OtherRustc>,
    /// How suggestions are applied, if `--fix` is given.
    pub fixing: Option<FixOptions>,
}

impl LintOptions {
    /// Returns whether diagnostics are printed, and not a diff alone.
    fn prints(&self) -> bool {
        match self.fixing {
            Some(fixing) => !fixing.is_dry,
            None => true,
        }
    }
}

/// The tables of a manifest whose metadata contain rules.
const PACKAGE: &str = "package";

const WORKSPACE: &str = "workspace";

/// The rules that apply to diagnostics: those of the workspace, of the package and of the command line.
#[derive(Clone, Copy, Drop)]
struct Rules<'a> {
    of_workspace: &'a [Rule],
    of_package: &'a [Rule],
    of_command: &'a [Rule],
}

/// The state of a run: its options, counts and output so far.
#[derive(Drop)]
struct LintRun<'a> {
    options: &'a LintOptions,
    /// The manifests that have been read.
    documents: ManifestCache,
    counts: Counts,
    printed: Printer,
    answer: Answer,
    /// The fixes of diagnostics, if these are collected, and nothing is reported.
    fixes: Option<Fixes>,
}

/// A manifest to whose text diagnostics point.
#[derive(Clone, Copy, Drop)]
struct Source<'a> {
    /// The path, as it is displayed.
    path: &'a str,
    text: &'a str,
}

/// Returns the level of a diagnostic after the rules. They do not change that of one without a lint.
fn lint_level(rules: &Rules<'_>, diagnostic: &Diagnostic) -> DiagnosticLevel {
    match diagnostic.rule_input() {
        Some(input) => level_after_all(
            rules.of_workspace,
            rules.of_package,
            rules.of_command,
            &input,
        ),
        None => diagnostic.level,
    }
}

impl<'a> LintRun<'a> {
    /// Prints a diagnostic, unless a rule allows it.
    fn report_unless_allowed(
        &mut self,
        alloc: Global,
        rules: &Rules<'_>,
        source: &Source<'_>,
        diagnostic: &Diagnostic,
    ) -> Result<(), AllocError> {
        let level = lint_level(rules, diagnostic);
        if level == DiagnosticLevel::Allowed {
            return Ok(());
        }
        if let Some(fixes) = &mut self.fixes {
            return fixes.add(alloc, source.text, diagnostic);
        }
        self.report(alloc, level, source, diagnostic)
    }

    /// Prints a diagnostic of this level, and counts it.
    fn report(
        &mut self,
        alloc: Global,
        level: DiagnosticLevel,
        source: &Source<'_>,
        diagnostic: &Diagnostic,
    ) -> Result<(), AllocError> {
        let reported = EmittedDiagnostic {
            diagnostic,
            level,
            path: source.path,
            text: source.text,
        };
        if self.options.prints() {
            self.printed
                .push(&mut self.answer.output, alloc, &reported)?;
        }
        self.counts.add(level);
        self.answer.raise(status_of(level, self.options.fails_from));
        Ok(())
    }

    /// Reports the diagnostics on the rules of a part of a manifest: the invalid ones, and those that are not needed.
    fn report_each(
        &mut self,
        alloc: Global,
        rules: &Rules<'_>,
        source: &Source<'_>,
        found: &[Diagnostic],
    ) -> Result<(), AllocError> {
        for diagnostic in found {
            self.report_unless_allowed(alloc, rules, source, diagnostic)?;
        }
        Ok(())
    }

    /// Applies the fixes for the settings of a workspace's root, and reads them again.
    fn fix_root<R: Files + AllocGlobal>(
        &mut self,
        rt: &R,
        root: &mut Root,
        is_whole: bool,
        fixing: FixOptions,
    ) -> Result<(), AllocError> {
        let alloc = rt.alloc();
        let locations = places_at(rt, &mut self.documents, root.file.as_str())?;
        let mut fixes = Fixes::new(alloc, fixing);
        for diagnostic in &found_in_root(alloc, root, &locations, is_whole)? {
            let rules = Rules {
                of_workspace: &root.settings.rules,
                of_package: &[],
                of_command: &self.options.rules,
            };
            if lint_level(&rules, diagnostic) != DiagnosticLevel::Allowed {
                fixes.add(alloc, locations.text.as_str(), diagnostic)?;
            }
        }
        let answer = fix_file(rt, &mut self.documents, root.file.as_str(), fixes)?;
        self.answer.append(answer)?;
        root.read_again(rt, &mut self.documents, self.options.other.as_ref())
    }

    /// Reports the diagnostics on the settings of a workspace's root, after those on its members. With `--fix`, its
    /// fixes are applied before.
    fn report_on_root<R: Files + AllocGlobal>(
        &mut self,
        rt: &R,
        root: &mut Root,
    ) -> Result<(), AllocError> {
        let alloc = rt.alloc();
        let options = self.options;
        let is_whole = options.is_whole && root.is_selected;
        if !root.has_diagnostics(is_whole) {
            return Ok(());
        }
        if let Some(fixing) = options.fixing {
            self.fix_root(rt, root, is_whole, fixing)?;
        }
        let path = printable_text(alloc, root.file.as_str())?;
        let locations = places_at(rt, &mut self.documents, root.file.as_str())?;
        let found = found_in_root(alloc, root, &locations, is_whole)?;
        let rules = Rules {
            of_workspace: &root.settings.rules,
            of_package: &[],
            of_command: &options.rules,
        };
        let source = Source {
            path: path.as_str(),
            text: locations.text.as_str(),
        };
        self.report_each(alloc, &rules, &source, &found)
    }

    /// Reports the diagnostics on a manifest and on its settings.
    fn report_on_manifest(
        &mut self,
        alloc: Global,
        root: &mut Root,
        settings: &Settings,
        manifest: &Manifest,
        found: &[Diagnostic],
    ) -> Result<(), AllocError> {
        let options = self.options;
        let rule_inputs = rule_inputs_in(alloc, found)?;
        root.note_needed(&rule_inputs);
        let rules = Rules {
            of_workspace: &root.settings.rules,
            of_package: &settings.rules,
            of_command: &options.rules,
        };
        let source = Source {
            path: manifest.path.as_str(),
            text: manifest.document.locations.text.as_str(),
        };
        self.report_each(alloc, &rules, &source, found)?;
        let locations = &manifest.document.locations;
        let found = found_in_settings(alloc, settings, locations, &rule_inputs)?;
        self.report_each(alloc, &rules, &source, &found)
    }
}

/// Returns the places in the text of the manifest of a root. There are none if it can't be read.
fn places_at<R: Files + AllocGlobal>(
    rt: &R,
    documents: &mut ManifestCache,
    file: &str,
) -> Result<SourceMap, AllocError> {
    let alloc = rt.alloc();
    match documents.get(rt, file)? {
        Some(document) => SourceMap::of(alloc, strip_byte_order_mark(document.text.as_str())),
        None => Ok(SourceMap::none(alloc)),
    }
}

/// Returns the diagnostics on the rules of a root: the invalid ones and, if `is_whole`, those that no diagnostic needs.
fn found_in_root(
    alloc: Global,
    root: &Root,
    locations: &SourceMap,
    is_whole: bool,
) -> Result<Vec<Diagnostic>, AllocError> {
    let mut found = faults_in(alloc, &root.settings, locations, WORKSPACE)?;
    if !is_whole {
        return Ok(found);
    }
    for (rule, is_needed) in root.settings.rules.iter().zip(&root.needed) {
        if is_unneeded(rule, *is_needed) {
            found.push(diagnostic_of_unneeded(alloc, locations, WORKSPACE, rule)?)?;
        }
    }
    Ok(found)
}

/// Returns the diagnostics on the invalid rules of a part of a manifest.
fn faults_in(
    alloc: Global,
    settings: &Settings,
    locations: &SourceMap,
    part: &str,
) -> Result<Vec<Diagnostic>, AllocError> {
    let mut found = Vec::new(alloc);
    for fault in &settings.faults {
        found.push(diagnostic_of_fault(alloc, locations, part, fault)?)?;
    }
    Ok(found)
}

/// Returns the diagnostics on the rules of a package: the invalid ones, and those that none of `rule_inputs` needs.
fn found_in_settings(
    alloc: Global,
    settings: &Settings,
    locations: &SourceMap,
    rule_inputs: &[RuleInput<'_>],
) -> Result<Vec<Diagnostic>, AllocError> {
    let mut found = faults_in(alloc, settings, locations, PACKAGE)?;
    for rule in &settings.rules {
        if is_unneeded(rule, rule.is_needed(rule_inputs)) {
            found.push(diagnostic_of_unneeded(alloc, locations, PACKAGE, rule)?)?;
        }
    }
    Ok(found)
}

/// The settings of a package, and the diagnostics on its manifest that are not in the report.
#[derive(Drop)]
struct Beside<'s> {
    settings: &'s Settings,
    /// The names that rustc knew only until some release.
    formers: FormerNames,
    /// The diagnostics on misplaced tables and unread fields.
    wrong: Vec<TableDiagnostic>,
}

impl<'a> LintRun<'a> {
    /// Reports the diagnostics on a manifest.
    fn report_findings(
        &mut self,
        alloc: Global,
        root: &mut Root,
        manifest: &Manifest,
        report: &Report<'_>,
        beside: &Beside<'_>,
    ) -> Result<(), AllocError> {
        let locations = &manifest.document.locations;
        let found = found_in(alloc, root, locations, report, beside)?;
        self.report_on_manifest(alloc, root, beside.settings, manifest, &found)
    }
}

/// Returns the properties of diagnostics on which rules depend.
fn rule_inputs_in(alloc: Global, found: &[Diagnostic]) -> Result<Vec<RuleInput<'_>>, AllocError> {
    let mut rule_inputs = Vec::new(alloc);
    for diagnostic in found {
        if let Some(it) = diagnostic.rule_input() {
            rule_inputs.push(it)?;
        }
    }
    Ok(rule_inputs)
}

/// Returns whether the settings of a package or of its workspace make a target known, or whether rustc knew it before,
/// which is another diagnostic.
fn is_known(root: &Root, beside: &Beside<'_>, name: &str) -> bool {
    root.settings.knows_target(name)
        || beside.settings.knows_target(name)
        || beside.formers.has_target(name)
}

/// Returns whether a finding is not reported. If the lints of a manifest can't be read, nobody can tell which facts it
/// declares.
fn is_left_out(root: &Root, report: &Report<'_>, beside: &Beside<'_>, finding: &Finding) -> bool {
    match finding.code {
        KeyLint::Custom => root.hides_lints,
        KeyLint::UnknownTarget => match finding.key {
            Some(place) => match report.keys.get(place) {
                Some(key) => is_known(root, beside, key.text),
                None => false,
            },
            None => false,
        },
        _ => false,
    }
}

/// A diagnostic on a key, with the index of the key.
#[derive(Drop)]
struct OnKey {
    index: usize,
    diagnostic: Diagnostic,
}

/// Returns the diagnostics on keys, in the order of the keys: for each those of the report, and then those on names
/// that rustc knew only until some release, in the order of their places.
fn found_on_keys(
    alloc: Global,
    root: &Root,
    locations: &SourceMap,
    report: &Report<'_>,
    beside: &Beside<'_>,
) -> Result<Vec<OnKey>, AllocError> {
    let mut found = Vec::new(alloc);
    for finding in &report.findings {
        if !is_left_out(root, report, beside, finding) {
            found.push(OnKey {
                index: finding.key.unwrap_or(0),
                diagnostic: diagnostic_of(alloc, locations, report, finding)?,
            })?;
        }
    }
    for diagnostic in formers_in(alloc, locations, &beside.formers)? {
        let mut keys = report.keys.iter();
        let index = keys.position(|it| diagnostic.key() == Some(it.text));
        found.push(OnKey {
            index: index.unwrap_or(0),
            diagnostic,
        })?;
    }
    found.sort_by_key(|it| it.index)?;
    Ok(found)
}

/// Returns the diagnostics on a manifest, before rules apply.
fn found_in(
    alloc: Global,
    root: &Root,
    locations: &SourceMap,
    report: &Report<'_>,
    beside: &Beside<'_>,
) -> Result<Vec<Diagnostic>, AllocError> {
    let mut found = Vec::new(alloc);
    for OnKey {
        index: _,
        diagnostic,
    } in found_on_keys(alloc, root, locations, report, beside)? {
        found.push(diagnostic)?;
    }
    for it in &beside.wrong {
        found.push(diagnostic_of_misplaced(alloc, locations, it)?)?;
    }
    Ok(found)
}

/// Returns the diagnostics on names that rustc knew only until some release, in the order of their places.
fn formers_in(
    alloc: Global,
    locations: &SourceMap,
    formers: &FormerNames,
) -> Result<Vec<Diagnostic>, AllocError> {
    let mut found = Vec::new(alloc);
    for it in &formers.found {
        found.push(diagnostic_of_misplaced(alloc, locations, it)?)?;
    }
    found.sort_by_key(|it| it.location().map_or(0, |at| at.span.start))?;
    Ok(found)
}

/// Appends a note for each key that takes too many case splits to decide.
fn push_undecided(
    errors: &mut String,
    alloc: Global,
    path: &str,
    report: &Report<'_>,
) -> Result<(), AllocError> {
    for place in &report.undecided {
        if let Some(key) = report.keys.get(*place) {
            let key = printable_excerpt(alloc, key.text)?;
            let note = format!(in alloc;
                "{path}: note: target.'{key}': too complex to decide `always`, `never` and `equivalent`\n"
            )?;
            errors.push_str(note.as_str())?;
        }
    }
    Ok(())
}

/// Reports the diagnostics on a manifest and, with `--verbose`, that it has no key.
fn print_report(
    alloc: Global,
    root: &mut Root,
    run: &mut LintRun<'_>,
    manifest: &Manifest,
    report: &Report<'_>,
    beside: &Beside<'_>,
) -> Result<(), AllocError> {
    run.report_findings(alloc, root, manifest, report, beside)?;
    if run.options.is_verbose && report.keys.is_empty() {
        let path = manifest.path.as_str();
        let line = format!(in alloc; "{path}: no key of `target` to check\n")?;
        run.answer.errors.push_str(line.as_str())?;
    }
    push_undecided(
        &mut run.answer.errors,
        alloc,
        manifest.path.as_str(),
        report,
    )
}

/// Finds the names in a manifest that rustc knew only until some release, and declares their facts.
fn declare_formers(
    alloc: Global,
    manifest: &mut Table,
    project: &ToolchainSettings<'_>,
) -> Result<FormerNames, AllocError> {
    let formers = FormerNames::of(alloc, manifest, project)?;
    declare(alloc, manifest, &formers.facts)?;
    Ok(formers)
}

/// Lints a manifest, with the targets of another rustc if `--facts-of` is given.
fn report_on<'m>(
    alloc: Global,
    manifest: &'m Manifest,
    known_facts: &KnownFacts,
    other: Option<&OtherRustc>,
) -> Result<Report<'m>, AllocError> {
    let mut report = lint(alloc, &manifest.document, known_facts)?;
    replace_diagnostics(alloc, other, &manifest.document.table, &mut report)?;
    Ok(report)
}

/// Lints the configuration at a path with the settings of its root, or reports that it can't be used.
fn lint_configuration<R: Files + Input + AllocGlobal>(
    rt: &R,
    path: &str,
    known_facts: &KnownFacts,
    root: &mut Root,
    run: &mut LintRun<'_>,
) -> Result<(), AllocError> {
    let alloc = rt.alloc();
    let Some(mut manifest) = load_configuration(rt, path, run)? else {
        run.counts.add_unread_configuration();
        return Ok(());
    };
    let wrong = wrong_fields(alloc, &manifest.document.table)?;
    let lints = root.configuration_lints()?;
    let mut table = manifest_with_targets(alloc, &manifest.document.table, lints)?;
    declare(alloc, &mut table, &root.settings.facts)?;
    let other = root.other.as_ref().or(run.options.other.as_ref());
    add_declared_facts(alloc, other, &mut table)?;
    let settings = Settings::of(alloc, None)?;
    let project = ToolchainSettings {
        of_workspace: &root.settings,
        of_package: &settings,
        rust_version: None,
        targets: former_targets(other),
    };
    let formers = declare_formers(alloc, &mut table, &project)?;
    manifest.document.table = table;
    let mut report = report_on(alloc, &manifest, known_facts, other)?;
    root.hides_lints = false;
    explain_unsupported(alloc, &mut report.findings)?;
    run.counts.add_configuration(report.keys.len());
    let beside = Beside {
        settings: &settings,
        formers,
        wrong,
    };
    print_report(alloc, root, run, &manifest, &report, &beside)
}

/// Lints the manifest at a path, or reports that it can't be used.
fn lint_at<R: Files + Input + Env + AllocGlobal>(
    rt: &R,
    path: &str,
    known_facts: &KnownFacts,
    root: &mut Root,
    run: &mut LintRun<'_>,
) -> Result<(), AllocError> {
    let alloc = rt.alloc();
    let Some(mut manifest) = load_manifest(rt, path, run)? else {
        run.counts.add_unread_manifest();
        return Ok(());
    };
    let table = &mut manifest.document.table;
    root.put_lints(alloc, table)?;
    declare(alloc, table, &root.settings.facts)?;
    let mut settings = Settings::in_part(alloc, table, PACKAGE)?;
    declare(alloc, table, &settings.facts)?;
    let file = ManifestFile {
        path,
        limit: run.documents.limit,
    };
    let other = root.other.as_ref().or(run.options.other.as_ref());
    let own = file.add_custom_targets(rt, &mut settings, other)?;
    let other = own.as_ref().or(other);
    add_declared_facts(alloc, other, table)?;
    let project = ToolchainSettings {
        of_workspace: &root.settings,
        of_package: &settings,
        rust_version: root.rust_version_of(table),
        targets: former_targets(other),
    };
    let formers = declare_formers(alloc, table, &project)?;
    let report = report_on(alloc, &manifest, known_facts, other)?;
    let wrong = table_diagnostics(alloc, &manifest.document.table)?;
    run.counts.add_manifest(report.keys.len());
    let beside = Beside {
        settings: &settings,
        formers,
        wrong,
    };
    print_report(alloc, root, run, &manifest, &report, &beside)
}

/// Lints a file, a configuration or a manifest.
fn lint_file<R: Files + Input + Env + AllocGlobal>(
    rt: &R,
    path: &str,
    known_facts: &KnownFacts,
    root: &mut Root,
    run: &mut LintRun<'_>,
) -> Result<(), AllocError> {
    if is_configuration(path) {
        lint_configuration(rt, path, known_facts, root, run)
    } else {
        lint_at(rt, path, known_facts, root, run)
    }
}

/// Returns the fixes of the diagnostics on a file, which are not reported.
fn fixes_for<R: Files + Input + Env + AllocGlobal>(
    rt: &R,
    path: &str,
    known_facts: &KnownFacts,
    root: &mut Root,
    run: &mut LintRun<'_>,
) -> Result<Option<Fixes>, AllocError> {
    let alloc = rt.alloc();
    let Some(fixing) = run.options.fixing else {
        return Ok(None);
    };
    let needed = root.needed.clone()?;
    let none = ManifestCache::new(alloc, run.documents.limit);
    let mut collecting = LintRun {
        options: run.options,
        documents: mem::replace(&mut run.documents, none),
        counts: Counts::none(),
        printed: Printer::new(alloc, run.options.style),
        answer: Answer::of(alloc, String::new(alloc), Status::Fine),
        fixes: Some(Fixes::new(alloc, fixing)),
    };
    lint_file(rt, path, known_facts, root, &mut collecting)?;
    let LintRun {
        options: _,
        documents,
        counts: _,
        printed: _,
        answer: _,
        fixes,
    } = collecting;
    run.documents = documents;
    root.needed = needed;
    Ok(fixes)
}

/// Applies the fixes for a file, if `--fix` is given, and lints the file.
fn lint_fixed<R: Files + Input + Env + AllocGlobal>(
    rt: &R,
    path: &str,
    known_facts: &KnownFacts,
    root: &mut Root,
    run: &mut LintRun<'_>,
) -> Result<(), AllocError> {
    if let Some(fixes) = fixes_for(rt, path, known_facts, root, run)? {
        let answer = fix_file(rt, &mut run.documents, path, fixes)?;
        run.answer.append(answer)?;
    }
    lint_file(rt, path, known_facts, root, run)
}

/// Returns whether one of the paths leads to the file.
fn has_path(alloc: Global, paths: &[&str], file: &str) -> Result<bool, AllocError> {
    let file = simplified_path(alloc, file)?;
    for path in paths {
        let path = simplified_path(alloc, path)?;
        if path.as_str() == file.as_str() {
            return Ok(true);
        }
    }
    Ok(false)
}

/// Lints one of the selected files, a configuration or a manifest. With the manifest of a root, the configuration
/// beside it is linted too, unless it is selected itself.
fn lint_named<R: Files + Input + Env + AllocGlobal>(
    rt: &R,
    paths: &[&str],
    path: &str,
    known_facts: &KnownFacts,
    root: &mut Root,
    run: &mut LintRun<'_>,
) -> Result<(), AllocError> {
    let alloc = rt.alloc();
    lint_fixed(rt, path, known_facts, root, run)?;
    if is_configuration(path) || !root.is_at(alloc, path)? {
        return Ok(());
    }
    root.is_selected = true;
    match configuration_beside(rt, path)? {
        Some(file) => {
            if has_path(alloc, paths, file.as_str())? {
                return Ok(());
            }
            lint_fixed(rt, file.as_str(), known_facts, root, run)
        }
        None => Ok(()),
    }
}

/// Returns the path of the manifest that a file belongs to: for a configuration, the one beside it.
fn manifest_of(alloc: Global, path: &str) -> Result<String, AllocError> {
    if is_configuration(path) {
        return manifest_beside(alloc, path);
    }
    String::from_str(alloc, path)
}

/// Reports each thing that can't be used, and then lints the selected files in their order. Manifests in `documents`
/// are not read again.
pub fn lint_each<R: Files + Input + Env + AllocGlobal>(
    rt: &R,
    paths: &[&str],
    unusable: &[InputError],
    options: &LintOptions,
    documents: ManifestCache,
) -> Result<Answer, AllocError> {
    let alloc = rt.alloc();
    let known_facts = KnownFacts::new(alloc)?;
    let printed = Printer::new(alloc, options.style);
    let begin = printed.begin(alloc, options.version.as_str())?;
    let mut run = LintRun {
        options,
        documents,
        counts: Counts::none(),
        printed,
        answer: Answer::of(alloc, begin, Status::Fine),
        fixes: None,
    };
    for it in unusable {
        report_without_place(alloc, &it.file, it.reason.clone()?, &mut run)?;
    }
    let mut root = Root::none(alloc)?;
    for path in paths {
        let manifest = manifest_of(alloc, path)?;
        let documents = &mut run.documents;
        if let Some(mut other) = Root::of(rt, documents, manifest.as_str(), &root)? {
            run.report_on_root(rt, &mut root)?;
            other.read_targets(rt, run.documents.limit, options.other.as_ref())?;
            root = other;
        }
        lint_named(rt, paths, path, &known_facts, &mut root, &mut run)?;
    }
    run.report_on_root(rt, &mut root)?;
    let LintRun {
        options: _,
        documents: _,
        counts,
        printed,
        mut answer,
        fixes: _,
    } = run;
    answer.output.push_str(printed.end(alloc)?.as_str())?;
    if !options.is_quiet {
        let line = counts.line(alloc)?;
        answer.errors.push_str(line.as_str())?;
    }
    Ok(answer)
}
