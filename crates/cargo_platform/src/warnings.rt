//! Warns about conditions that are valid, but may not select dependencies as their author expects.

ghost use Rattle.std.specs.Prelude.{◌≡◌, ◌+◌, ◌++◌, true, List, ℕ, IfOk, OnOk, OnErr, map, flat_map, string_bytes};
ghost use Rattle.cargo_platform.specs.Trees.{CfgValue, name_of, value_of, tree_of, trees_of, condition_of};
ghost use Rattle.cargo_platform.specs.Spelling.{is_literal_word};
ghost use Rattle.cargo_platform.specs.Errors.{texts};
ghost use Rattle.cargo_platform.specs.Inside.Printing.{is_group};
ghost use Rattle.cargo_platform.specs.ExpressionSizes.{node_count, node_counts};
ghost use Rattle.cargo_platform.specs.Warnings.{values, members_values, attribute_warning, attribute_warnings};
ghost use Rattle.cargo_platform.specs.Warnings.{keyword_warning, keyword_warning_of, keyword_warnings};
ghost use Rattle.cargo_platform.specs.Warnings.{condition_values};
ghost use Rattle.cargo_platform.specs.Warnings.{is_unsupported_name, unsupported_name, unsupported_feature, IsLonger};

use crate::display::members_of;
use crate::{Cfg, CfgExpr, Ident, Platform};
use std::alloc::{AllocError, Global};
use std::slice;

impl Platform {
    /// Appends a warning for each name or pair of the expression that is not supported for selecting dependencies, in
    /// their order from left to right: the names `test`, `debug_assertions` and `proc_macro`, and pairs with the key
    /// `feature`, marked as raw or not. There are none for the name of a target. See "Platform specific dependencies"
    /// in Cargo's reference.
    ///
    /// Fails only if an allocation fails. The list is unchanged then.
    pub fn check_cfg_attributes(
        &self,
        alloc: Global,
        warnings: &mut Vec<String>,
    ) -> Result<(), AllocError>
        // The warnings of the definition are appended in order, and none on failure.
        ensures ok { OnOk result
            (texts warnings.new ≡ texts warnings.old ++ attribute_warnings (condition_of self.now)) }
        ensures err { OnErr result (texts warnings.new ≡ texts warnings.old) }
    {
        warn(self, alloc, &Attributes, warnings)
    }

    /// Appends a warning for each name or pair of the expression whose name or key is `true` or `false` without the raw
    /// mark, in their order from left to right. Only a tree that is built by hand has such a value: the parsers reject
    /// the words as keys, and parse them alone as literals. There are none for the name of a target. `path` names the
    /// manifest, and is copied unchanged into each warning.
    ///
    /// Fails only if an allocation fails. The list is unchanged then.
    pub fn check_cfg_keywords(
        &self,
        alloc: Global,
        warnings: &mut Vec<String>,
        path: &str,
    ) -> Result<(), AllocError>
        // The warnings of the definition are appended in order, and none on failure.
        ensures ok { OnOk result
            (texts warnings.new ≡ texts warnings.old ++ keyword_warnings path.now (condition_of self.now)) }
        ensures err { OnErr result (texts warnings.new ≡ texts warnings.old) }
    {
        warn(self, alloc, &Keywords(path), warnings)
    }
}

/// A kind of warning about single values.
trait Lint {
    // The text of the warning about a value, or nothing.
    ghost warning: { Self → CfgValue → List (List ℕ) };

    /// Appends the warning about a value, if there is one.
    fn check(&self, alloc: Global, c: &Cfg, warnings: &mut Vec<String>) -> Result<(), AllocError>
        ensures ok { OnOk result
            (texts warnings.new ≡ texts warnings.old ++ warning self.now (value_of c.now)) }
        ensures err { OnErr result (texts warnings.new ≡ texts warnings.old) };
}

/// The lint for names and keys that are not supported for selecting dependencies.
#[derive(Drop)]
struct Attributes;

impl Lint for Attributes {
    ghost warning = { λ _ c. attribute_warning c };

    fn check(&self, alloc: Global, c: &Cfg, warnings: &mut Vec<String>) -> Result<(), AllocError> {
        match c {
            Cfg::Name(name) if is_unsupported(name) => {
                warnings.push(name_text(alloc, name)?)?;
            }
            Cfg::KeyPair(key, _) if key.as_str() == "feature" => {
                warnings.push(feature_text(alloc)?)?;
            }
            _ => {}
        }
        Ok(())
    }
}

/// Returns whether no target sets the name.
fn is_unsupported(name: &Ident) -> bool
    ensures { result ≡ is_unsupported_name (name_of name.now) }
{
    matches!(name.as_str(), "test" | "debug_assertions" | "proc_macro")
}

/// Creates the warning about a name that no target sets.
fn name_text(alloc: Global, name: &Ident) -> Result<String, AllocError>
    ensures { IfOk result (λ s. string_bytes s ≡ unsupported_name (name_of name.now)) }
{
    format!(in alloc;
        "Found `{name}` in `target.'cfg(...)'.dependencies`. This value is not supported \
        for selecting dependencies and will not work as expected. To learn more visit \
        https://doc.rust-lang.org/cargo/reference/specifying-dependencies.html#platform-specific-dependencies"
    )
}

/// Creates the warning about the key `feature`.
fn feature_text(alloc: Global) -> Result<String, AllocError>
    ensures { IfOk result (λ s. string_bytes s ≡ unsupported_feature) }
{
    String::from_str(
        alloc,
        "Found `feature = ...` in `target.'cfg(...)'.dependencies`. This key is not supported \
        for selecting dependencies and will not work as expected. Use the [features] section instead: \
        https://doc.rust-lang.org/cargo/reference/features.html",
    )
}

/// The lint for keywords in place of an identifier, in the manifest at a path.
#[derive(Drop)]
struct Keywords<'a>(&'a str);

impl<'a> Lint for Keywords<'a> {
    ghost warning = { λ k c. keyword_warning_of k.0.now c };

    fn check(&self, alloc: Global, c: &Cfg, warnings: &mut Vec<String>) -> Result<(), AllocError> {
        match c {
            Cfg::Name(name) | Cfg::KeyPair(name, _) if is_keyword(name) => {
                warnings.push(keyword_text(alloc, self.0, c, name.as_str())?)?;
            }
            _ => {}
        }
        Ok(())
    }
}

/// Returns whether the name is an unmarked `true` or `false`.
fn is_keyword(name: &Ident) -> bool
    ensures { result ≡ is_literal_word (name_of name.now) }
{
    !name.raw && matches!(name.as_str(), "true" | "false")
}

/// Creates the warning about a keyword in place of an identifier.
fn keyword_text(alloc: Global, path: &str, c: &Cfg, word: &str) -> Result<String, AllocError>
    ensures { IfOk result (λ s. string_bytes s ≡ keyword_warning path.now (value_of c.now) word.now) }
{
    format!(in alloc;
        "[{path}] future-incompatibility: `cfg({c})` is deprecated as `{word}` is a keyword and not an identifier \
        and should not have have been accepted in this position.\n \
        | this was previously accepted by Cargo but is being phased out; \
        it will become a hard error in a future release!\n |\n \
        | help: use raw-idents instead: `cfg(r#{word})`"
    )
}

/// Appends all warnings of a kind, or removes those that were appended before an allocation failed.
#[tactic(auto, using(crate::proofs::WarningWalks::cut_back))]
fn warn<L: Lint>(
    platform: &Platform,
    alloc: Global,
    lint: &L,
    warnings: &mut Vec<String>,
) -> Result<(), AllocError>
    ensures ok { OnOk result
        (texts warnings.new ≡ texts warnings.old ++ flat_map (L.warning lint.now)
        (condition_values (condition_of platform.now))) }
    ensures err { OnErr result (texts warnings.new ≡ texts warnings.old) }
{
    let Platform::Cfg(e) = platform else {
        return Ok(());
    };
    let held = warnings.len();
    let result = walk(e, alloc, lint, warnings);
    if result.is_err() {
        warnings.truncate(held);
    }
    result
}

/// Returns the members of a group. The only member of a negation is the negated expression.
// This is a function of its own, so that the walk compares its way to a value and does not jump through a table.
#[inline(never)]
fn opened(e: &CfgExpr) -> &[CfgExpr]
    ensures values { is_group (tree_of e.now) ≡ true
        → values (tree_of e.now) ≡ members_values (trees_of (map tree_of result.now)) }
    ensures size { is_group (tree_of e.now) ≡ true → node_count e.now ≡ node_counts result.now + 1 }
{
    members_of(e).unwrap_or(&[])
}

/// Appends the warnings about the values of an expression, until an allocation fails.
fn walk<L: Lint>(
    e: &CfgExpr,
    alloc: Global,
    lint: &L,
    warnings: &mut Vec<String>,
) -> Result<(), AllocError>
    ensures ok { OnOk result
        (texts warnings.new ≡ texts warnings.old ++ flat_map (L.warning lint.now) (values (tree_of e.now))) }
    ensures err { OnErr result (IsLonger (texts warnings.new) (texts warnings.old)) }
{
    // The members that are left of the group that was opened last, of one around it, and of those around these. Most
    // conditions have no more than two, and so need no memory here.
    let mut members = slice::from_ref(e);
    let mut around: &[CfgExpr] = &[];
    let mut outer: Vec<&[CfgExpr]> = Vec::new(alloc);
    'members: loop {
        let Some((first, others)) = members.split_first() else {
            if !around.is_empty() {
                members = around;
                around = &[];
                continue;
            }
            let Some(left) = outer.pop() else {
                return Ok(());
            };
            members = left;
            continue;
        };
        members = others;
        let group = match first {
            CfgExpr::Value(c) => {
                lint.check(alloc, c, warnings)?;
                continue;
            }
            CfgExpr::True | CfgExpr::False => continue,
            CfgExpr::Not(_) | CfgExpr::All(_) | CfgExpr::Any(_) => opened(first),
        };
        if !members.is_empty() {
            if !around.is_empty() {
                outer.push(around)?;
            }
            around = members;
        }
        members = group;
    }
}
