//! Counts the queries to a holder of facts.
//!
//! Matching sees its holder only as `Asked`, whose one method counts each query. The type of the count is opaque to
//! matching: so matching can create no count, and the count that it returns includes every query.

ghost use Rattle.std.specs.Prelude.{◌≡◌, ℕ, ◌-◌, ◌^◌};
ghost use Rattle.std.specs.FinSet.{contains};
ghost use Rattle.cargo_platform.specs.Trees.{value_of};
ghost use Rattle.cargo_platform.specs.Facts.{FactSet, pair_of};
ghost use Rattle.cargo_platform.specs.Inside.Asking.{Counts};

use crate::cfg::Cfg;
use crate::facts::Facts;
use std::marker::Model;

/// The number of queries to a holder of facts. Only a matching function that counts creates one.
#[derive(Drop)]
pub struct Asks {
    count: u128,
}

impl Model for Asks {
    ghost use Rattle.std.specs.Prelude.{ℕ};

    ghost Value = { ℕ };

    ghost view = { λ asks. asks.count };
}

impl Asks {
    /// Returns a count of no queries.
    pub(crate) fn none() -> Asks
        ensures { result ≡ 0 }
    {
        Asks { count: 0 }
    }

    /// Returns the number of queries. The greatest `u128` stands for that many or more.
    pub fn count(&self) -> u128
        ensures { result ≡ self.now }
    {
        self.count
    }
}

/// Counts the queries to a holder or the comparisons of a search, or counts nothing.
pub(crate) trait Tally {
    // The queries so far. The greatest count stands for that many or more.
    ghost asks: { Self → ℕ };

    /// Adds one to the count.
    fn add_one(&mut self)
        ensures { Counts 1 0 (asks self.old) (asks self.new) };
}

impl Tally for Asks {
    ghost asks = { λ asks. asks };

    #[inline(always)]
    fn add_one(&mut self) {
        self.count = self.count.saturating_add(1);
    }
}

/// A tally that counts nothing: it is always at the greatest count.
#[derive(Drop)]
pub(crate) struct Uncounted;

impl Tally for Uncounted {
    ghost asks = { λ _. 2 ^ 128 - 1 };

    #[inline(always)]
    fn add_one(&mut self) {}
}

/// A holder of facts whose queries are counted by a `T`, and by nothing else.
pub(crate) trait Asked<T: Tally> {
    // The finite set of pairs that the holder represents.
    ghost meant: { Self → FactSet };

    /// Makes one query and counts it. Returns whether the holder has the fact `c`.
    fn ask(&self, tally: &mut T, c: &Cfg) -> bool
        ensures answer { result ≡ contains (meant self.now) (pair_of (value_of c.now)) }
        ensures count { Counts 1 0 (T.asks tally.old) (T.asks tally.new) };
}

impl<F: Facts, T: Tally> Asked<T> for F {
    ghost meant = { F.meant };

    #[inline(never)]
    fn ask(&self, tally: &mut T, c: &Cfg) -> bool {
        tally.add_one();
        self.holds(c)
    }
}
