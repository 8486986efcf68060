//! Targets that replace the built-in ones: those of another rustc, from a file, or any with others that are added.

use crate::questions::{copied, facts_of_lines};
use cargo_platform::{Cfg, CfgExpr, Platform};
use exact_answers::{
    FactConstraints, Satisfiability, Validity, always_platform, can_hold_platform,
};
use input_limits::strip_byte_order_mark;
use key_answers::answer::QueryError;
use key_answers::printing::{format_name, invalid_fact_message};
use known_targets::{COUNT, KnownTarget, RUSTC_VERSION, TargetSet, targets_with_fact};
use manifest_lints_findings::near;
use manifests::TargetFacts;
use partial_facts::{decide_platform, residual_platform};
use std::alloc::{AllocError, Global};
use std::cell::OnceCell;
use std::collections::BTreeSet;
use target_tables::{TableError, TargetRow, TargetTable, read_table};

/// The maximum number of targets. Names are searched linearly.
const MOST: usize = 10_000;

/// The targets of a file, or the known targets, with others that are added to them.
#[derive(Drop)]
pub struct GivenTargets {
    /// The path of the file, as it is displayed, or what else messages call the targets.
    pub file: String,
    /// The targets of the file, and those that are added.
    own: TargetTable,
    /// True if the known targets come before these.
    has_known: bool,
    /// The known targets and the own ones, which are listed when their facts are first needed.
    listed: OnceCell<TargetTable>,
}

/// The source of the facts of targets.
#[derive(Clone, Copy, Drop)]
pub enum FactsFrom<'a> {
    /// The built-in targets.
    Known,
    /// Lines with the facts of every target.
    Lines(&'a str),
    /// The targets of a table.
    File(&'a GivenTargets),
}

/// Returns a line without the carriage return at its end, or `None` if it is blank then.
pub(crate) fn non_blank_line(line: &str) -> Option<&str> {
    let line = line.strip_suffix("\r").unwrap_or(line);
    if line.trim().is_empty() {
        None
    } else {
        Some(line)
    }
}

/// Returns the lines of a file without what editors add: a byte order mark, carriage returns at the ends of lines, and
/// white space on blank lines. Each line keeps its number.
fn lines_of(alloc: Global, text: &str) -> Result<String, AllocError> {
    let mut lines = String::new(alloc);
    for line in strip_byte_order_mark(text).split('\n') {
        lines.push_str(non_blank_line(line).unwrap_or(""))?;
        lines.push_str("\n")?;
    }
    Ok(lines)
}

/// Returns the message for a file that is not a table of targets.
fn refused_file(alloc: Global, file: &str, error: &TableError) -> Result<QueryError, AllocError> {
    let line = match error {
        TableError::Line { number, error } => {
            let message = invalid_fact_message(alloc, *number, error)?;
            let message = message.as_str().strip_prefix("error: ").unwrap_or("");
            format!(in alloc; "{file}: error: {message}")?
        }
        TableError::Twice { number } => {
            format!(in alloc; "{file}: error: line {number} names a target that stands above\n")?
        }
        TableError::Memory(_) => return Err(AllocError),
    };
    Ok(QueryError::Unusable(line))
}

/// Returns the number of targets in the lines of a file. Each begins after an empty line, or at the beginning.
fn count_in(lines: &str) -> usize {
    let mut count: usize = 0;
    let mut is_behind_empty = true;
    for line in lines.split('\n') {
        if is_behind_empty && !line.is_empty() {
            count = count.saturating_add(1);
        }
        is_behind_empty = line.is_empty();
    }
    count
}

/// Returns the message for a file with no target, or with too many.
fn refused_count(alloc: Global, file: &str, count: usize) -> Result<QueryError, AllocError> {
    let line = if count == 0 {
        format!(in alloc; "{file}: error: it has no targets\n")?
    } else {
        format!(in alloc; "{file}: error: it has {count} targets, and {MOST} are the most\n")?
    };
    Ok(QueryError::Unusable(line))
}

/// Returns the table of the known targets, followed by these rows.
fn behind_known(alloc: Global, own: &TargetTable) -> Result<TargetTable, AllocError> {
    let mut table = TargetTable::of_known_targets(alloc)?;
    for row in own.rows() {
        let facts = copied(alloc, row.facts())?;
        let _is_new = table.add(alloc, row.name(), facts)?;
    }
    Ok(table)
}

impl GivenTargets {
    /// Parses the targets in the text of a file: at least one, and at most 10,000.
    pub fn of(alloc: Global, file: String, text: &str) -> Result<GivenTargets, QueryError> {
        let lines = lines_of(alloc, text)?;
        let count = count_in(lines.as_str());
        if count == 0 || count > MOST {
            return Err(refused_count(alloc, file.as_str(), count)?);
        }
        match read_table(alloc, lines.as_str()) {
            Ok(own) => Ok(GivenTargets {
                file,
                own,
                has_known: false,
                listed: OnceCell::new(),
            }),
            Err(error) => Err(refused_file(alloc, file.as_str(), &error)?),
        }
    }

    /// Returns the known targets.
    pub fn known(alloc: Global) -> Result<GivenTargets, AllocError> {
        Ok(GivenTargets {
            file: format!(in alloc; "rustc {RUSTC_VERSION}")?,
            own: TargetTable::new(alloc),
            has_known: true,
            listed: OnceCell::new(),
        })
    }

    /// Returns a copy of the targets, to which others can be added.
    pub fn copy(&self, alloc: Global) -> Result<GivenTargets, AllocError> {
        let mut own = TargetTable::new(alloc);
        for row in self.own.rows() {
            let facts = copied(alloc, row.facts())?;
            let _is_new = own.add(alloc, row.name(), facts)?;
        }
        Ok(GivenTargets {
            file: self.file.clone()?,
            own,
            has_known: self.has_known,
            listed: OnceCell::new(),
        })
    }

    /// Adds the target of this name with the facts in a text, one on each line. Fails with a message if there is
    /// already a target of this name, if a line is not a fact, if there is no fact, and if there are too many targets.
    pub fn add(&mut self, alloc: Global, name: &str, text: &str) -> Result<(), QueryError> {
        let facts = facts_of_lines(alloc, text)?;
        if facts.is_empty() {
            let line = String::from_str(alloc, "error: the file has no facts\n")?;
            return Err(QueryError::Unusable(line));
        }
        if self.count() >= MOST {
            let file = self.file.as_str();
            let line = format!(in alloc;
                "error: {file} has {MOST} targets, and no more are allowed\n"
            )?;
            return Err(QueryError::Unusable(line));
        }
        if !self.is_known(name) && self.own.add(alloc, name, facts)? {
            self.listed = OnceCell::new();
            return Ok(());
        }
        let file = self.file.as_str();
        let line = format!(in alloc; "error: {file} has a target of this name\n")?;
        Err(QueryError::Unusable(line))
    }

    /// Returns the targets: the known ones, if they are among them, and then those of the file. Fails only if an
    /// allocation fails.
    pub fn table(&self, alloc: Global) -> Result<&TargetTable, AllocError> {
        if !self.has_known {
            return Ok(&self.own);
        }
        let own = &self.own;
        self.listed.get_or_try_init(|| behind_known(alloc, own))
    }

    /// Returns the number of targets.
    pub fn count(&self) -> usize {
        let count = self.own.rows().len();
        if self.has_known {
            count.saturating_add(COUNT)
        } else {
            count
        }
    }

    /// Returns the names of the targets, in their order.
    pub fn names(&self, alloc: Global) -> Result<Vec<&str>, AllocError> {
        let mut names = Vec::new(alloc);
        if self.has_known {
            for target in TargetSet::all().iter() {
                names.push(target.name())?;
            }
        }
        for row in self.own.rows() {
            names.push(row.name())?;
        }
        Ok(names)
    }

    /// Returns whether a known target that is among these has this name.
    fn is_known(&self, name: &str) -> bool {
        self.has_known && KnownTarget::by_name(name).is_some()
    }

    /// Returns whether one of the targets has this name.
    pub fn has_name(&self, name: &str) -> bool {
        self.own.by_name(name).is_some() || self.is_known(name)
    }

    /// Returns the target of this name.
    fn by_name(&self, alloc: Global, name: &str) -> Result<Option<&TargetRow>, AllocError> {
        if self.is_known(name) {
            Ok(self.table(alloc)?.by_name(name))
        } else {
            Ok(self.own.by_name(name))
        }
    }

    /// Returns the target of this name. Fails with a message if there is none.
    pub fn named(&self, alloc: Global, name: &str) -> Result<&TargetRow, QueryError> {
        match self.by_name(alloc, name)? {
            Some(row) => Ok(row),
            None => {
                let message = self.unknown_message(alloc, name)?;
                let line = format!(in alloc; "error: {message}\n")?;
                Err(QueryError::Unusable(line))
            }
        }
    }

    /// Returns the first name of a target that differs from this name by one edit, if there is one.
    pub fn nearest(&self, alloc: Global, name: &str) -> Result<Option<&str>, AllocError> {
        Ok(near(name, &self.names(alloc)?))
    }

    /// Returns the message for a name that no target has, with the nearest one.
    pub fn unknown_message(&self, alloc: Global, name: &str) -> Result<String, AllocError> {
        let file = self.file.as_str();
        let shown = format_name(alloc, name)?;
        match self.nearest(alloc, name)? {
            Some(nearest) => {
                format!(in alloc; "no target of {file} is named {shown}; did you mean {nearest}?")
            }
            None => format!(in alloc; "no target of {file} is named {shown}"),
        }
    }

    /// Returns the names of the targets on which the condition is true.
    pub fn matching(&self, alloc: Global, condition: &Platform) -> Result<Vec<&str>, AllocError> {
        let mut names = Vec::new(alloc);
        let table = self.table(alloc)?;
        for place in &table.matching(alloc, condition)? {
            if let Some(row) = table.rows().get(*place) {
                names.push(row.name())?;
            }
        }
        Ok(names)
    }

    /// Returns whether a condition of so many facts is true on no target, and whether it is true on each, whichever
    /// facts with these names and keys are set. With more than `FEW_FACTS` facts, only what each fact says by itself
    /// counts. Fails if memory is refused.
    pub fn nowhere_and_everywhere<'x>(
        &'x self,
        alloc: Global,
        condition: &Platform,
        open: &'x [&'x str],
        facts: usize,
    ) -> Result<(bool, bool), AllocError> {
        let mut none = true;
        let mut each = true;
        for row in self.table(alloc)?.rows() {
            let known = TargetFacts {
                facts: row.facts(),
                added: &[],
                open,
            };
            let (can_hold, can_fail) = match decide_platform(condition, Some(row.name()), &known) {
                Some(truth) => (truth, !truth),
                None if facts > FEW_FACTS => (true, true),
                None => {
                    let left = residual_platform(alloc, condition, Some(row.name()), &known)?;
                    can_be(alloc, &left)?
                }
            };
            none = none && !can_hold;
            each = each && !can_fail;
            if !none && !each {
                break;
            }
        }
        Ok((none, each))
    }

    /// Returns whether one of the targets has the fact.
    pub fn has(&self, fact: &Cfg) -> bool {
        if self.has_known && !targets_with_fact(fact).is_empty() {
            return true;
        }
        let mut rows = self.own.rows().iter();
        rows.any(|row| row.facts().iter().any(|it| it == fact))
    }

    /// Returns the facts of these targets that no known target has, each once.
    pub fn new_facts(&self, alloc: Global) -> Result<Vec<String>, AllocError> {
        let mut seen = BTreeSet::new(alloc);
        let mut texts = Vec::new(alloc);
        for row in self.own.rows() {
            for fact in row.facts() {
                if seen.insert(fact)? && targets_with_fact(fact).is_empty() {
                    texts.push(fact.to_string(alloc)?)?;
                }
            }
        }
        Ok(texts)
    }
}

/// The maximum number of facts of a condition that is searched on each target.
const FEW_FACTS: usize = 64;

/// The maximum number of case splits in a search on one target.
const SPLITS: u64 = 64;

/// Returns whether a condition of which nothing is known can be true, and whether it can be false, for all that
/// `SPLITS` case splits show.
fn can_be(alloc: Global, condition: &Platform) -> Result<(bool, bool), AllocError> {
    let anything = CfgExpr::True;
    let known = FactConstraints {
        facts: &[],
        complete: &[],
        single: &[],
        assumed: &anything,
    };
    let can_hold = match can_hold_platform(alloc, condition, &known, SPLITS)? {
        Satisfiability::No => false,
        Satisfiability::Yes(_) | Satisfiability::Undecided => true,
    };
    let can_fail = match always_platform(alloc, condition, &known, SPLITS)? {
        Validity::Yes => false,
        Validity::No(_) | Validity::Undecided => true,
    };
    Ok((can_hold, can_fail))
}
