//! Releases of rustc, their order, and how they are parsed.

ghost use Rattle.std.specs.Prelude.{◌↔◌, ◌≡◌, ◌≢◌, ◌<◌, ◌^◌, ℕ, IsTrue, IfSome, IfNone};
ghost use Rattle.std.specs.Fmt.{decimal};
ghost use Rattle.former_names.specs.Releases.{IsSpelled, SpellsLast, IsAtMost};

use std::fmt;
use std::fmt::Display;

/// A release of rustc.
#[derive(Clone, Copy, Debug, PartialEq, Eq, Drop)]
pub struct Release {
    pub major: u64,
    pub minor: u64,
    pub patch: u64,
}

/// Parses a decimal number, without a sign, and without leading zeros.
#[rattlefmt::skip]
#[tactic(auto, using(
    crate::proofs::Numbers::is_read, crate::proofs::Numbers::is_unread, crate::proofs::Numbers::not_empty,
    crate::proofs::Numbers::no_sign, crate::proofs::Numbers::no_zeros,
))]
fn number(text: &str) -> Option<u64>
    ensures read { IfSome result (λ n. text.now ≡ decimal n) }
    ensures unread { IfNone result ((n : ℕ) → n < 2 ^ 64 → text.now ≢ decimal n) }
{
    let digits = text.as_bytes();
    if digits.is_empty() {
        return None;
    }
    if digits[0] == b'+' {
        return None;
    }
    if digits[0] == b'0' && digits.len() != 1 {
        return None;
    }
    text.parse::<u64>().ok()
}

/// Parses the second and the third number of a release. A missing third number is 0.
fn last_numbers(text: &str) -> Option<(u64, u64)>
    ensures read { IfSome result (λ n. SpellsLast text.now n.0 n.1) }
    ensures unread { IfNone result ((minor patch : ℕ) → minor < 2 ^ 64 → patch < 2 ^ 64
        → SpellsLast text.now minor patch → ⊥) }
{
    match text.split_once('.') {
        Some((minor, patch)) => Some((number(minor)?, number(patch)?)),
        None => Some((number(text)?, 0)),
    }
}

impl Release {
    /// Parses a release: two or three numbers with points between them. A missing third number is 0. Returns `None` for
    /// any other text.
    pub fn of(text: &str) -> Option<Release>
        ensures read { IfSome result (λ r. IsSpelled text.now r) }
        ensures unread { IfNone result ((r : Release) → IsSpelled text.now r → ⊥) }
    {
        let (major, rest) = text.split_once('.')?;
        let (minor, patch) = last_numbers(rest)?;
        Some(Release {
            major: number(major)?,
            minor,
            patch,
        })
    }

    /// Returns whether `other` is the same release or a later one.
    pub fn is_at_most(self, other: Release) -> bool
        ensures { IsTrue result ↔ IsAtMost self other }
    {
        if self.major != other.major {
            return self.major < other.major;
        }
        if self.minor != other.minor {
            return self.minor < other.minor;
        }
        self.patch <= other.patch
    }
}

impl Display for Release {
    ghost use Rattle.std.specs.Prelude.{Some};
    ghost use Rattle.former_names.specs.Releases.{whole_text};

    // Prints exactly the bytes that the definition gives.
    ghost output = { λ r. Some (whole_text r) };

    fn fmt<W: fmt::Write>(&self, f: &mut fmt::Formatter<W>) -> fmt::Result {
        let Release {
            major,
            minor,
            patch,
        } = self;
        write!(f, "{major}.{minor}.{patch}")
    }
}
