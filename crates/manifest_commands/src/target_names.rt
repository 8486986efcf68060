//! The targets that a command line selects, with the facts that compiler flags add to each.

use crate::limits::limit_of;
use cargo_configuration::{RustflagsFacts, RustflagsTarget, SharedRustflags, rustflags_facts};
use clap::ArgMatches;
use key_answers::answer::QueryError;
use key_answers::targets::names_of;
use known_targets::TargetSet;
use manifest_answers::given_targets::FactsFrom;
use manifest_answers::selecting::Target;
use std::alloc::{AllocError, Global};
use std::rt::{Env, Files};

/// The value of `--target` for all known targets, or for all of `--facts-of`.
pub const ALL_TARGETS: &str = "all";

/// Returns the names of all targets whose facts are known: the known ones, or those of a file.
fn every_name(alloc: Global, from: FactsFrom<'_>) -> Result<Vec<String>, AllocError> {
    let mut names = Vec::new(alloc);
    match from {
        FactsFrom::File(given) => {
            for name in given.names(alloc)? {
                names.push(String::from_str(alloc, name)?)?;
            }
        }
        FactsFrom::Known | FactsFrom::Lines(_) => {
            for name in names_of(alloc, TargetSet::all())? {
                names.push(String::from_str(alloc, name)?)?;
            }
        }
    }
    Ok(names)
}

/// Appends a name, unless it is present.
fn add_name(names: &mut Vec<String>, alloc: Global, name: &str) -> Result<(), AllocError> {
    if names.iter().any(|it| it.as_str() == name) {
        return Ok(());
    }
    names.push(String::from_str(alloc, name)?)?;
    Ok(())
}

/// Returns whether a value of `--target` stands for all targets. With `--facts` it is the name of a target.
fn is_every(name: &str, from: FactsFrom<'_>) -> bool {
    match from {
        FactsFrom::Known | FactsFrom::File(_) => name == ALL_TARGETS,
        FactsFrom::Lines(_) => false,
    }
}

/// Returns the names of the selected targets, each once. With `all` among the values of `--target`, they are all whose
/// facts are known.
pub fn named_targets(
    alloc: Global,
    matches: &ArgMatches<'_>,
    from: FactsFrom<'_>,
) -> Result<Vec<String>, AllocError> {
    let mut names = Vec::new(alloc);
    for name in matches.get_strs("target").unwrap_or(&[]) {
        if is_every(name, from) {
            return every_name(alloc, from);
        }
        add_name(&mut names, alloc, name)?;
    }
    Ok(names)
}

/// The selected targets with the facts that are added to each, and a note on each fact that flags set.
#[derive(Drop)]
pub struct TargetsWithFlags {
    pub targets: Vec<Target>,
    pub notes: String,
}

impl TargetsWithFlags {
    /// Adds a target with the facts of `--cfg` and those that flags set.
    fn add(
        &mut self,
        alloc: Global,
        name: &String,
        added: &[&str],
        flags: &RustflagsFacts,
    ) -> Result<(), AllocError> {
        self.targets.push(Target {
            name: name.clone()?,
            added: added_by(alloc, added, flags)?,
        })?;
        self.add_notes(flags.notes.as_str())
    }

    /// Appends those of some lines that are not present.
    fn add_notes(&mut self, notes: &str) -> Result<(), AllocError> {
        for note in notes.lines() {
            if !self.notes.lines().any(|it| it == note) {
                self.notes.push_str(note)?;
                self.notes.push_str("\n")?;
            }
        }
        Ok(())
    }
}

/// Returns the flags that the environment and Cargo's configuration set, unless `--no-config` is given.
fn flags_at_hand<R: Files + Input + Env + AllocGlobal>(
    rt: &R,
    matches: &ArgMatches<'_>,
) -> Result<Option<SharedRustflags>, QueryError> {
    if matches.get_flag("no-config") {
        return Ok(None);
    }
    Ok(Some(SharedRustflags::read(rt, limit_of(matches))?))
}

/// Returns the facts that compiler flags set for a target, if flags count.
fn facts_of_flags<R: Env + AllocGlobal>(
    rt: &R,
    matches: &ArgMatches<'_>,
    shared: &Option<SharedRustflags>,
    name: &str,
    from: FactsFrom<'_>,
) -> Result<RustflagsFacts, AllocError> {
    let Some(shared) = shared else {
        return Ok(RustflagsFacts::none(rt.alloc()));
    };
    let target = RustflagsTarget {
        name,
        facts_from: from,
        added: matches.get_strs("cfg").unwrap_or(&[]),
    };
    rustflags_facts(rt, shared, &target)
}

/// Returns the facts of `--cfg`, followed by those that flags set.
fn added_by(
    alloc: Global,
    added: &[&str],
    flags: &RustflagsFacts,
) -> Result<Vec<String>, AllocError> {
    let mut facts = Vec::new(alloc);
    for fact in added {
        facts.push(String::from_str(alloc, fact)?)?;
    }
    for fact in &flags.facts {
        facts.push(fact.clone()?)?;
    }
    Ok(facts)
}

/// Returns the targets of these names with the facts that are added to each. Fails if a configuration is invalid.
pub fn targets_with_flags<R: Files + Input + Env + AllocGlobal>(
    rt: &R,
    matches: &ArgMatches<'_>,
    names: &[String],
    from: FactsFrom<'_>,
) -> Result<TargetsWithFlags, QueryError> {
    let alloc = rt.alloc();
    let mut flagged = TargetsWithFlags {
        targets: Vec::new(alloc),
        notes: String::new(alloc),
    };
    let added = matches.get_strs("cfg").unwrap_or(&[]);
    let shared = flags_at_hand(rt, matches)?;
    for name in names {
        let flags = facts_of_flags(rt, matches, &shared, name.as_str(), from)?;
        flagged.add(alloc, name, added, &flags)?;
    }
    Ok(flagged)
}
