//! Which licences an entry of a list allows, and whether a list satisfies an expression.

ghost use Rattle.std.specs.Prelude.{◌≡◌, ◌<◌, ◌^◌, ◌+◌, ◌≤◌, true, false, map};
ghost use Rattle.std.specs.List.{list_any};
ghost use Rattle.std.specs.Str.{str_eq_ignore_ascii_case};
ghost use Rattle.spdx_expressions.specs.Trees.{Tree, term_of, piece_of, pieces, text_of};
ghost use Rattle.spdx_expressions.specs.Grammar.{Spells};
ghost use Rattle.spdx_expressions.specs.Allowed.{ends_in, offers_later, stem, same_exception, allows, is_allowed};
ghost use Rattle.spdx_expressions.specs.Allowed.{truth};
ghost use Rattle.spdx_expressions.specs.Inside.Walking.{step, walk, live, live_step, passing_step, walk_of};

use crate::{Licence, LicenceExpression, Part};

/// Returns whether two texts are equal, ignoring the case of ASCII letters.
fn same_text(a: &[u8], b: &[u8]) -> bool
    ensures { result ≡ str_eq_ignore_ascii_case a.now b.now }
{
    a.eq_ignore_ascii_case(b)
}

/// Returns whether a name ends with `suffix`, ignoring the case of ASCII letters.
fn ends_in(suffix: &[u8], name: &[u8]) -> bool
    ensures { result ≡ ends_in suffix.now name.now }
{
    let start = name.len().saturating_sub(suffix.len());
    same_text(&name[start..], suffix)
}

/// Returns a name without `-or-later` or `-only` at its end.
fn stem(name: &[u8]) -> &[u8]
    ensures { result.now ≡ stem name.now }
{
    if ends_in(b"-or-later", name) {
        &name[..name.len().saturating_sub(9)]
    } else if ends_in(b"-only", name) {
        &name[..name.len().saturating_sub(5)]
    } else {
        name
    }
}

/// Returns whether a licence is offered in later versions too.
fn offers_later(licence: &Licence) -> bool
    ensures { result ≡ offers_later (term_of licence.now) }
{
    licence.or_later || ends_in(b"-or-later", licence.id.as_bytes())
}

/// Returns whether both have no exception, or the same one.
fn same_exception(a: &Option<String>, b: &Option<String>) -> bool
    ensures { result ≡ same_exception (text_of a.now) (text_of b.now) }
{
    match a {
        None => b.is_none(),
        Some(e) => match b {
            None => false,
            Some(f) => same_text(e.as_bytes(), f.as_bytes()),
        },
    }
}

impl Licence {
    /// Returns whether this licence, as an entry of a list of allowed licences, allows another one. They need the same
    /// identifier, whatever the case of its letters, and the same exception. `-or-later` counts as `+`, and `-only` as
    /// neither. A licence that is offered in later versions is allowed by either form of the entry. Any other is
    /// allowed only by an entry that names no later versions.
    pub fn allows(&self, licence: &Licence) -> bool
        // An entry allows a licence with its stem and exception. An entry with later versions allows only a licence
        // with them.
        ensures { result ≡ allows (term_of self.now) (term_of licence.now) }
    {
        same_text(stem(self.id.as_bytes()), stem(licence.id.as_bytes()))
            && (!offers_later(self) || offers_later(licence))
            && same_exception(&self.exception, &licence.exception)
    }
}

/// Returns whether an entry of a list allows a licence.
fn is_allowed(allowed: &[Licence], licence: &Licence) -> bool
    ensures { result ≡ list_any (λ entry. allows (term_of entry) (term_of licence.now)) allowed.now }
{
    allowed.iter().any(|entry| entry.allows(licence))
}

/// The truth of an expression so far. Parts that can't change it are skipped. `depth` is then the number of
/// brackets that were opened since.
#[derive(Clone, Copy)]
struct Walk {
    value: bool,
    passing: bool,
    depth: usize,
}

impl Walk {
    /// Goes over a part.
    fn over(self, part: &Part, allowed: &[Licence]) -> Walk
        requires { self.depth < 2 ^ 63 }
        ensures step { walk_of result ≡ step (is_allowed (map term_of allowed.now)) (walk_of self) (piece_of part.now) }
        ensures depth { result.depth ≤ self.depth + 1 }
    {
        if self.passing {
            self.pass_over(part)
        } else {
            self.go_into(part, allowed)
        }
    }

    /// Goes over a part that can change what is known.
    fn go_into(self, part: &Part, allowed: &[Licence]) -> Walk
        requires { self.passing ≡ false }
        ensures step { walk_of result
            ≡ live_step (is_allowed (map term_of allowed.now)) self.value (piece_of part.now) }
        ensures depth { result.depth ≤ self.depth }
    {
        match part {
            Part::Licence(licence) => Walk {
                value: is_allowed(allowed, licence),
                ..self
            },
            Part::Open | Part::Close => self,
            Part::And => Walk {
                passing: !self.value,
                depth: 0,
                ..self
            },
            Part::Or => Walk {
                passing: self.value,
                depth: 0,
                ..self
            },
        }
    }

    /// Goes over a part that can't change what is known.
    fn pass_over(self, part: &Part) -> Walk
        requires passing { self.passing ≡ true }
        requires depth { self.depth < 2 ^ 63 }
        ensures step { walk_of result ≡ passing_step self.value self.depth (piece_of part.now) }
        ensures depth { result.depth ≤ self.depth + 1 }
    {
        match part {
            Part::Licence(_) | Part::And => self,
            Part::Open => Walk {
                depth: self.depth + 1,
                ..self
            },
            Part::Close => {
                if self.depth == 0 {
                    Walk {
                        passing: false,
                        ..self
                    }
                } else {
                    Walk {
                        depth: self.depth - 1,
                        ..self
                    }
                }
            }
            Part::Or => Walk {
                passing: self.value || self.depth != 0,
                ..self
            },
        }
    }
}

impl LicenceExpression {
    /// Returns whether a list of allowed licences satisfies the expression: both sides of each `AND`, one side of each
    /// `OR`, and each licence by an entry that `allows` it. It goes over the parts once, and over the list for each
    /// licence.
    pub fn is_satisfied(&self, allowed: &[Licence]) -> bool
        // The result is the truth of the tree that the parts mean, where a licence is true exactly if some entry allows
        // it.
        ensures { (t : Tree) → Spells 0 t self.now → result ≡ truth (is_allowed (map term_of allowed.now)) t }
    {
        walk_over(self.parts(), allowed)
    }
}

/// Returns what is known after going over the parts.
fn walk_over(parts: &[Part], allowed: &[Licence]) -> bool
    ensures { result ≡ (walk (is_allowed (map term_of allowed.now)) (live false) (pieces parts.now)).value }
{
    let mut reached = Walk {
        value: false,
        passing: false,
        depth: 0,
    };
    for part in parts {
        reached = reached.over(part, allowed);
    }
    reached.value
}
