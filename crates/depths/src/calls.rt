//! The calls, and whether their results are what is known of a condition without them.

use crate::nests::{Form, condition, is_condition, name, open_text};
use cargo_platform::{Cfg, CfgExpr, FactIndex, Platform, ReadError};
use partial_facts::{Partial, decide_platform, residual_platform};
use std::alloc::{AllocError, Global};
use std::cmp::Ordering;
use std::hash::{DefaultHasher, Hash, Hasher};

/// The innermost name, which the walk for attributes warns about.
const LEAF: &str = "test";

/// A name that is ordered after `LEAF`.
const LATER: &str = "unix";

/// A name that the walk for keywords warns about.
const KEYWORD: &str = "true";

/// A call of the library that is made on nests.
#[derive(Clone, Copy)]
pub enum Call {
    Read,
    RefuseSurplus,
    RefuseOpen,
    MatchesKey,
    Print,
    Debug,
    ToJson,
    Clone,
    Attributes,
    Keywords,
    Matches,
    MatchesIn,
    Equal,
    Order,
    Hash,
    Decide,
    Residual,
}

impl Call {
    /// Returns the name of the call in the output.
    pub fn name(self) -> &'static str {
        match self {
            Call::Read => "from_str",
            Call::RefuseSurplus => "from_str, refused for a surplus name",
            Call::RefuseOpen => "from_str, refused for an open group",
            Call::MatchesKey => "matches_key",
            Call::Print => "print",
            Call::Debug => "print by {:?}",
            Call::ToJson => "to_json",
            Call::Clone => "clone",
            Call::Attributes => "check_cfg_attributes",
            Call::Keywords => "check_cfg_keywords",
            Call::Matches => "matches",
            Call::MatchesIn => "matches_in",
            Call::Equal => "==",
            Call::Order => "cmp",
            Call::Hash => "hash",
            Call::Decide => "decide",
            Call::Residual => "residual",
        }
    }
}

/// A nest: an even number of levels around a name, so that negations cancel.
#[derive(Drop)]
pub struct Nest {
    form: Form,
    levels: u32,
    platform: Platform,
    open_text: String,
}

impl Nest {
    /// Returns the nest of this form with `levels` levels.
    pub fn new(alloc: Global, form: Form, levels: u32) -> Result<Nest, AllocError> {
        let open_text = open_text(alloc, form, levels, LEAF)?;
        let platform = condition(alloc, form, levels, LEAF)?;
        Ok(Nest {
            form,
            levels,
            platform,
            open_text,
        })
    }

    /// Returns whether the result of the call is what is known of the nest.
    pub fn is_expected(&self, alloc: Global, call: Call) -> Result<bool, AllocError> {
        match call {
            Call::Read => self.reads(alloc, ")", true),
            Call::RefuseSurplus => self.reads(alloc, " b)", false),
            Call::RefuseOpen => self.reads(alloc, "", false),
            Call::MatchesKey => self.matches_key(alloc),
            Call::Print => self.prints(alloc),
            Call::Debug => self.debugs(alloc),
            Call::ToJson => self.is_json(alloc),
            Call::Clone => self.clones(alloc),
            Call::Attributes => warns_of_attribute(alloc, &self.platform),
            Call::Keywords => self.warns_of_keyword(alloc),
            Call::Matches => self.matches(alloc),
            Call::MatchesIn => self.matches_in(alloc),
            Call::Equal | Call::Order | Call::Hash => self.compares(alloc, call),
            Call::Decide => Ok(self.decides(&[], None) && self.decides(&[LEAF], Some(false))),
            Call::Residual => Ok(self.leaves_nest(alloc)? && self.leaves_false(alloc)?),
        }
    }

    fn text(&self, alloc: Global, after: &str) -> Result<String, AllocError> {
        let mut text = String::from_str(alloc, &self.open_text)?;
        text.push_str(after)?;
        Ok(text)
    }

    /// Returns whether the text, with `after` at its end, is accepted or rejected as `is_condition` says.
    fn reads(&self, alloc: Global, after: &str, is_condition: bool) -> Result<bool, AllocError> {
        match Platform::from_str(alloc, &self.text(alloc, after)?) {
            Ok(_) => Ok(is_condition),
            Err(ReadError::Parse(_)) => Ok(!is_condition),
            Err(ReadError::Memory(error)) => Err(error),
        }
    }

    fn matches_key(&self, alloc: Global) -> Result<bool, AllocError> {
        let key = self.text(alloc, ")")?;
        CfgExpr::matches_key(alloc, &key, &facts(alloc)?)
    }

    fn prints(&self, alloc: Global) -> Result<bool, AllocError> {
        let platform = &self.platform;
        let text = format!(in alloc; "{platform}")?;
        Ok(text == self.text(alloc, ")")?)
    }

    /// Returns whether `{:?}` prints the same text for the expression.
    fn debugs(&self, alloc: Global) -> Result<bool, AllocError> {
        let Platform::Cfg(expression) = &self.platform else {
            return Ok(false);
        };
        let text = format!(in alloc; "cfg({expression:?})")?;
        Ok(text == self.text(alloc, ")")?)
    }

    fn is_json(&self, alloc: Global) -> Result<bool, AllocError> {
        let text = self.text(alloc, ")")?;
        Ok(self.platform.to_json(alloc)?.as_str() == Some(text.as_str()))
    }

    fn clones(&self, alloc: Global) -> Result<bool, AllocError> {
        let copy = self.platform.clone(alloc)?;
        Ok(is_condition(&copy, self.form, self.levels, LEAF))
    }

    fn warns_of_keyword(&self, alloc: Global) -> Result<bool, AllocError> {
        let mut warnings = Vec::new(alloc);
        let keyword = condition(alloc, self.form, self.levels, KEYWORD)?;
        keyword.check_cfg_keywords(alloc, &mut warnings, "Cargo.toml")?;
        Ok(warnings.len() == 1)
    }

    /// Returns whether the nest is true, as the name in it is.
    fn matches(&self, alloc: Global) -> Result<bool, AllocError> {
        let platform = &self.platform;
        Ok(platform.matches("", &facts(alloc)?) && !platform.matches("", &[]))
    }

    fn matches_in(&self, alloc: Global) -> Result<bool, AllocError> {
        let Platform::Cfg(expression) = &self.platform else {
            return Ok(false);
        };
        let all = FactIndex::new(alloc, &facts(alloc)?)?;
        let none = FactIndex::new(alloc, &[])?;
        Ok(expression.matches_in(&all) && !expression.matches_in(&none))
    }

    /// Returns whether this is decided for the nest if no fact has one of the names in `complete`.
    fn decides(&self, complete: &[&str], wanted: Option<bool>) -> bool {
        let known = Partial {
            facts: &[],
            complete,
        };
        decide_platform(&self.platform, None, &known) == wanted
    }

    /// Returns the residual of the nest if no fact has one of the names in `complete`.
    fn left(&self, alloc: Global, complete: &[&str]) -> Result<Platform, AllocError> {
        let known = Partial {
            facts: &[],
            complete,
        };
        residual_platform(alloc, &self.platform, None, &known)
    }

    /// Returns whether the residual is right: it has the negations, and no members that are true.
    fn leaves_nest(&self, alloc: Global) -> Result<bool, AllocError> {
        let levels = match self.form {
            Form::Not => self.levels,
            Form::Last | Form::First => 0,
        };
        let left = self.left(alloc, &[])?;
        Ok(is_condition(&left, self.form, levels, LEAF))
    }

    fn leaves_false(&self, alloc: Global) -> Result<bool, AllocError> {
        let left = self.left(alloc, &[LEAF])?;
        Ok(matches!(&left, Platform::Cfg(CfgExpr::False)))
    }

    /// Compares the nest with itself, and with one around a later name.
    fn compares(&self, alloc: Global, call: Call) -> Result<bool, AllocError> {
        let later = condition(alloc, self.form, self.levels, LATER)?;
        let platform = &self.platform;
        Ok(match call {
            Call::Equal => platform == platform && *platform != later,
            Call::Order => {
                platform.cmp(platform) == Ordering::Equal && platform.cmp(&later) == Ordering::Less
            }
            _ => hash_of(platform) == hash_of(platform) && hash_of(platform) != hash_of(&later),
        })
    }
}

/// Returns the innermost name, as a fact.
fn facts(alloc: Global) -> Result<Vec<Cfg>, AllocError> {
    vec![in alloc; name(alloc, LEAF)?].map_err(AllocError::from)
}

fn warns_of_attribute(alloc: Global, platform: &Platform) -> Result<bool, AllocError> {
    let mut warnings = Vec::new(alloc);
    platform.check_cfg_attributes(alloc, &mut warnings)?;
    Ok(warnings.len() == 1)
}

fn hash_of(platform: &Platform) -> u64 {
    let mut state = DefaultHasher::new();
    platform.hash(&mut state);
    state.finish()
}
