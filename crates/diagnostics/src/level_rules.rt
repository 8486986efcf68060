//! Rules that set the levels of diagnostics.

ghost use Rattle.std.specs.Prelude.{◌≡◌, ◌↔◌, ◌++◌, IsTrue, option_map};
ghost use Rattle.manifest_lints_findings.specs.Codes.{lint_word};
ghost use Rattle.diagnostics.specs.LintLevels.{level_set, severity, IsAbout, IsMeant, Hears, Makes, IsNeeded};

use manifest_lints_findings::Lint;

/// The level of a diagnostic, before or after rules apply. Unlike a `Level`, it may be that nothing is reported.
#[derive(Clone, Copy, Debug, PartialEq, Eq, Drop)]
pub enum DiagnosticLevel {
    /// The diagnostic is not reported.
    Allowed,
    /// Something that may be intended.
    Note,
    /// Something that does not do what its author may expect.
    Warning,
    /// Something that is rejected or left out.
    Error,
}

impl DiagnosticLevel {
    /// Returns how severe the level is, from 0 for what is not reported to 3 for an error.
    pub fn severity(self) -> u8
        ensures { result ≡ severity self }
    {
        match self {
            DiagnosticLevel::Allowed => 0,
            DiagnosticLevel::Note => 1,
            DiagnosticLevel::Warning => 2,
            DiagnosticLevel::Error => 3,
        }
    }
}

/// The level that a rule sets.
#[derive(Clone, Copy, Debug, PartialEq, Eq, Drop)]
pub enum LintLevel {
    /// The diagnostic is not reported.
    Allow,
    /// The diagnostic is a warning.
    Warn,
    /// The diagnostic is an error.
    Deny,
}

impl LintLevel {
    /// Returns the level of a diagnostic to which a rule with this setting applies.
    pub fn level(self) -> DiagnosticLevel
        ensures { result ≡ level_set self }
    {
        match self {
            LintLevel::Allow => DiagnosticLevel::Allowed,
            LintLevel::Warn => DiagnosticLevel::Warning,
            LintLevel::Deny => DiagnosticLevel::Error,
        }
    }

    /// Returns the name of the setting.
    pub fn word(self) -> &'static str {
        match self {
            LintLevel::Allow => "allow",
            LintLevel::Warn => "warn",
            LintLevel::Deny => "deny",
        }
    }
}

/// The diagnostics that a rule is about.
#[derive(Drop)]
pub enum Subject {
    /// The diagnostics of this lint.
    Lint(Lint),
    /// The diagnostics that are warnings after the rules before this one.
    Warnings,
    /// The diagnostics that are notes after the rules before this one.
    Notes,
}

impl Subject {
    /// Parses the subject of a rule: `warnings`, `notes`, or the name of a lint. Returns `None` for any other word.
    pub fn of(word: &str) -> Option<Subject> {
        match word {
            "warnings" => Some(Subject::Warnings),
            "notes" => Some(Subject::Notes),
            _ => Some(Subject::Lint(Lint::by_name(word)?)),
        }
    }

    /// Returns the name of the subject.
    pub fn word(&self) -> &'static str {
        match self {
            Subject::Lint(lint) => lint.word(),
            Subject::Warnings => "warnings",
            Subject::Notes => "notes",
        }
    }
}

/// A rule that sets the level of diagnostics.
#[derive(Drop)]
pub struct Rule {
    pub setting: LintLevel,
    pub subject: Subject,
    /// The only key to which the rule applies. `None` applies to all.
    pub key: Option<String>,
    /// If the rule is from a manifest's metadata, the index of its entry in the list there.
    pub entry: Option<usize>,
}

/// A diagnostic, as rules see it.
#[derive(Clone, Copy, Drop)]
pub struct RuleInput<'a> {
    pub lint: Lint,
    /// The key of `target` that the diagnostic is about, if there is one.
    pub key: Option<&'a str>,
    /// The level of the diagnostic before the rules.
    pub level: DiagnosticLevel,
}

impl Rule {
    /// Returns whether the rule's subject includes a diagnostic that has the level `level` after the rules before.
    fn is_about(&self, found: &RuleInput<'_>, level: DiagnosticLevel) -> bool
        ensures { IsTrue result ↔ IsAbout self.now.subject (lint_word found.now.lint) level }
    {
        match &self.subject {
            Subject::Lint(lint) => lint.word() == found.lint.word(),
            Subject::Warnings => level == DiagnosticLevel::Warning,
            Subject::Notes => level == DiagnosticLevel::Note,
        }
    }
}

/// Returns whether all keys are meant, or this one is.
fn is_meant(meant: &Option<String>, key: Option<&str>) -> bool
    ensures { IsTrue result ↔ IsMeant meant.now (option_map (λ k. k.now) key.entry) }
{
    match (meant, key) {
        (None, _) => true,
        (Some(meant), Some(key)) => meant.as_str() == key,
        (Some(_), None) => false,
    }
}

impl Rule {
    /// Returns whether the rule applies to a diagnostic that has the level `level` after the rules before.
    pub fn applies_to(&self, found: &RuleInput<'_>, level: DiagnosticLevel) -> bool
        ensures { IsTrue result
            ↔ Hears self.now (lint_word found.now.lint) (option_map (λ k. k.now) found.now.key) level }
    {
        self.is_about(found, level) && is_meant(&self.key, found.key)
    }
}

/// Returns the level of a diagnostic after the rules. They apply in their order: each sets the level if it applies to
/// the diagnostic at the level that it has by then.
pub fn level_after(rules: &[Rule], found: &RuleInput<'_>) -> DiagnosticLevel
    ensures { Makes (lint_word found.now.lint) (option_map (λ k. k.now) found.now.key) found.now.level
        rules.now result }
{
    let mut level = found.level;
    'rules: for rule in rules {
        if rule.applies_to(found, level) {
            level = rule.setting.level();
        }
    }
    level
}

impl Rule {
    /// Returns whether the rule applies to one of the diagnostics that would be reported without any rule.
    pub fn is_needed(&self, found: &[RuleInput<'_>]) -> bool
        ensures { IsTrue result ↔ IsNeeded self.now found.now }
    {
        for it in found {
            if it.level != DiagnosticLevel::Allowed && self.applies_to(it, it.level) {
                return true;
            }
        }
        false
    }
}

/// Returns the level of a diagnostic after the rules of a workspace, then those of its package, and then those of a
/// command line, which take precedence.
pub fn level_after_all(
    of_workspace: &[Rule],
    of_package: &[Rule],
    of_command: &[Rule],
    found: &RuleInput<'_>,
) -> DiagnosticLevel
    ensures { Makes (lint_word found.now.lint) (option_map (λ k. k.now) found.now.key) found.now.level
        (of_workspace.now ++ (of_package.now ++ of_command.now)) result }
{
    let by_workspace = RuleInput {
        level: level_after(of_workspace, found),
        ..*found
    };
    let by_package = RuleInput {
        level: level_after(of_package, &by_workspace),
        ..*found
    };
    level_after(of_command, &by_package)
}
