//! The `cfg` facts that flags of rustc add to a target.

use crate::flags::{Flags, SharedRustflags};
use crate::sources::{Source, used_source};
use cargo_platform::printable_excerpt;
use key_answers::answer::QueryError;
use manifest_answers::given_targets::FactsFrom;
use manifest_answers::questions::applies;
use std::alloc::{AllocError, Global};
use std::rt::{Env, Files};

/// A target to which flags may add facts.
#[derive(Clone, Copy, Drop)]
pub struct RustflagsTarget<'a> {
    pub name: &'a str,
    /// The source of the target's own facts.
    pub facts_from: FactsFrom<'a>,
    /// Facts that arguments add.
    pub added: &'a [&'a str],
}

/// Facts that flags set.
#[derive(Drop)]
pub struct RustflagsFacts {
    /// The facts, as the flags spell them, each once.
    pub facts: Vec<String>,
    /// A note on each fact, and on each codegen option whose facts are not known. It names the place of the flag.
    pub notes: String,
}

impl RustflagsFacts {
    /// Returns no facts.
    pub fn none(alloc: Global) -> RustflagsFacts {
        RustflagsFacts {
            facts: Vec::new(alloc),
            notes: String::new(alloc),
        }
    }

    /// Returns the facts `added`, with these after them.
    ///
    /// Fails only if an allocation fails.
    pub fn after<'a>(
        &'a self,
        alloc: Global,
        added: &[&'a str],
    ) -> Result<Vec<&'a str>, AllocError> {
        let mut facts = Vec::new(alloc);
        for fact in added {
            facts.push(*fact)?;
        }
        for fact in &self.facts {
            facts.push(fact.as_str())?;
        }
        Ok(facts)
    }

    /// Adds a fact that a flag of this place sets, unless it is present.
    fn add(&mut self, alloc: Global, fact: &str, place: &str) -> Result<(), AllocError> {
        if self.facts.iter().any(|it| it.as_str() == fact) {
            return Ok(());
        }
        self.facts.push(String::from_str(alloc, fact)?)?;
        let fact = printable_excerpt(alloc, fact)?;
        let place = printable_excerpt(alloc, place)?;
        let note = format!(in alloc; "note: {place} sets `{fact}`; --no-config leaves it out\n")?;
        self.notes.push_str(note.as_str())
    }

    /// Adds the facts that flags set: the flag after each `--cfg`, and what follows `--cfg=` in a flag.
    fn add_all(&mut self, alloc: Global, flags: &Flags) -> Result<(), AllocError> {
        let mut is_fact = false;
        for flag in &flags.flags {
            let flag = flag.as_str();
            if is_fact {
                self.add(alloc, flag, flags.place.as_str())?;
                is_fact = false;
            } else if flag == "--cfg" {
                is_fact = true;
            } else if let Some(fact) = flag.strip_prefix("--cfg=") {
                self.add(alloc, fact, flags.place.as_str())?;
            }
        }
        Ok(())
    }

    /// Adds a note on each codegen option that changes facts: what facts it sets is not known here.
    fn note_options(&mut self, alloc: Global, flags: &Flags) -> Result<(), AllocError> {
        let place = printable_excerpt(alloc, flags.place.as_str())?;
        let mut before = "";
        for flag in &flags.flags {
            let flag = flag.as_str();
            if let Some(option) = fact_option(before, flag) {
                let option = printable_excerpt(alloc, option)?;
                let note = format!(in alloc;
                    "note: {place} sets `-C {option}`, which is ignored; --facts can state its facts\n"
                )?;
                self.notes.push_str(note.as_str())?;
            }
            before = flag;
        }
        Ok(())
    }
}

/// The codegen options by which rustc sets other facts.
const FACT_OPTIONS: [&str; 5] = [
    "debug-assertions",
    "opt-level",
    "panic",
    "target-cpu",
    "target-feature",
];

/// Returns the codegen option in a flag if it changes facts. It is in the form `-C OPTION`, `-COPTION`,
/// `--codegen OPTION` or `--codegen=OPTION`, where `before` is the flag before it.
fn fact_option<'a>(before: &str, flag: &'a str) -> Option<&'a str> {
    let option = if before == "-C" || before == "--codegen" {
        flag
    } else {
        match flag.strip_prefix("--codegen=") {
            Some(option) => option,
            None => flag.strip_prefix("-C")?,
        }
    };
    if FACT_OPTIONS.iter().any(|it| option.starts_with(*it)) {
        Some(option)
    } else {
        None
    }
}

/// Returns whether the facts of a target are rustc's without flags, and not those that the user states.
fn are_without_flags(target: &RustflagsTarget<'_>) -> bool {
    match target.facts_from {
        FactsFrom::Known | FactsFrom::File(_) => true,
        FactsFrom::Lines(_) => false,
    }
}

/// Returns whether flags are those of a target: of a key of `target` that is its name or, once the facts of flags are
/// known, a condition that is true with these facts. Flags of another source are those of every target.
fn are_of(
    alloc: Global,
    flags: &Flags,
    target: &RustflagsTarget<'_>,
    known: Option<&RustflagsFacts>,
) -> Result<bool, AllocError> {
    let Some(key) = &flags.key else {
        return Ok(true);
    };
    let Some(known) = known else {
        return Ok(key.as_str() == target.name);
    };
    let added = known.after(alloc, target.added)?;
    match applies(alloc, key.as_str(), target.name, target.facts_from, &added) {
        Ok(applies) => Ok(applies),
        Err(QueryError::Unusable(_)) => Ok(false),
        Err(QueryError::Memory(refused)) => Err(refused),
    }
}

/// Returns whether some of the flags come from a source.
fn have_source(flags: &[&Flags], source: Source) -> bool {
    flags.iter().any(|it| it.source == source)
}

/// The flags that are set in the current folder: those that all targets share, and those of a variable that is set for
/// one.
#[derive(Clone, Copy, Drop)]
struct AllFlags<'a> {
    shared: &'a [Flags],
    of_target: &'a [Flags],
}

/// Adds those of some flags that may count for a target. Keys of `target` are evaluated with the known facts.
fn add_present<'a>(
    alloc: Global,
    flags: &'a [Flags],
    target: &RustflagsTarget<'_>,
    known: Option<&RustflagsFacts>,
    found: &mut Vec<&'a Flags>,
) -> Result<(), AllocError> {
    for flags in flags {
        let is_present = flags.source != Source::Target || !flags.flags.is_empty();
        if is_present && are_of(alloc, flags, target, known)? {
            found.push(flags)?;
        }
    }
    Ok(())
}

/// Returns those of all flags that Cargo uses for a target. Keys of `target` are evaluated with the known facts.
fn used_flags<'a>(
    alloc: Global,
    all: AllFlags<'a>,
    target: &RustflagsTarget<'_>,
    known: Option<&RustflagsFacts>,
) -> Result<Vec<&'a Flags>, AllocError> {
    let mut found: Vec<&'a Flags> = Vec::new(alloc);
    add_present(alloc, all.shared, target, known, &mut found)?;
    add_present(alloc, all.of_target, target, known, &mut found)?;
    let used = used_source(
        have_source(&found, Source::EncodedVariable),
        have_source(&found, Source::Variable),
        have_source(&found, Source::Target),
    );
    found.retain(|it| it.source == used);
    Ok(found)
}

/// Returns the facts of those of all flags that Cargo uses for a target.
fn facts_of(
    alloc: Global,
    all: AllFlags<'_>,
    target: &RustflagsTarget<'_>,
    known: Option<&RustflagsFacts>,
) -> Result<RustflagsFacts, AllocError> {
    let mut facts = RustflagsFacts::none(alloc);
    for flags in &used_flags(alloc, all, target, known)? {
        facts.add_all(alloc, flags)?;
        if are_without_flags(target) {
            facts.note_options(alloc, flags)?;
        }
    }
    Ok(facts)
}

/// Returns the facts that flags of rustc set for a target, by Cargo's reference ("Configuration": `build.rustflags`).
/// The sources of flags exclude each other; the first that has flags is used:
///
/// 1. the variable `CARGO_ENCODED_RUSTFLAGS`, if it is set;
/// 2. the variable `RUSTFLAGS`, if it is set;
/// 3. `rustflags` of all keys of `target` in the configuration that match, and `CARGO_TARGET_<triple>_RUSTFLAGS`;
/// 4. `build.rustflags`, and `CARGO_BUILD_RUSTFLAGS`.
///
/// As Cargo does, the keys of `target` are evaluated twice: first only those that are the target's name count, and then
/// all, with the facts that the first set.
///
/// Fails only if an allocation fails.
pub fn rustflags_facts<R: Env + AllocGlobal>(
    rt: &R,
    shared: &SharedRustflags,
    target: &RustflagsTarget<'_>,
) -> Result<RustflagsFacts, AllocError> {
    let alloc = rt.alloc();
    let of_target = shared.of_target(rt, target.name)?;
    let all = AllFlags {
        shared: &shared.flags,
        of_target: &of_target,
    };
    let first = facts_of(alloc, all, target, None)?;
    facts_of(alloc, all, target, Some(&first))
}
