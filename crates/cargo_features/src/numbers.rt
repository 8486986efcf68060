//! Claims as numbers.

ghost use Rattle.std.specs.Prelude.{◌≡◌, ◌<◌, ◌≤◌, ◌+◌, IfOk, IfSome, length, slice_index};
ghost use Rattle.package_graphs.specs.Packages.{number_of, node_of};
ghost use Rattle.cargo_features.specs.Inside.Numbered.{width, first_of, count_of, number, AreNumbers};

use crate::claims::Claim;
use crate::packages::Package;
use package_graphs::Side;
use std::alloc::{AllocError, Global};

/// The numbers of claims. Those about a package are consecutive, two for each fact.
#[derive(Drop)]
pub struct Numbers {
    firsts: Vec<usize>,
    count: usize,
}

/// Returns the number after those of a package, or `None` if it is too large.
fn after(first: usize, unit: &Package) -> Option<usize>
    ensures { IfSome result (λ n. n ≡ first + width unit.now) }
{
    let named = unit.features.len().checked_add(unit.dependencies.len())?;
    named.checked_add(2)?.checked_mul(2)?.checked_add(first)
}

/// Returns the offset of a side's number.
fn number_of(side: Side) -> usize
    ensures { result ≡ number_of side }
{
    match side {
        Side::Target => 0,
        Side::Host => 1,
    }
}

impl Numbers {
    /// Returns numbers for the claims about packages. Fails if an allocation fails, or if there are too many claims to
    /// number.
    pub fn new(alloc: Global, packages: &[Package]) -> Result<Numbers, AllocError>
        ensures { IfOk result (λ numbers. AreNumbers packages.now numbers) }
    {
        let mut firsts = Vec::new(alloc);
        let mut count: usize = 1;
        'packages: for unit in packages {
            firsts.push(count)?;
            match after(count, unit) {
                Some(next) => count = next,
                None => return Err(AllocError),
            }
        }
        Ok(Numbers { firsts, count })
    }

    /// Returns the number of claims.
    pub fn count(&self) -> usize
        ensures { result ≡ self.now.count }
    {
        self.count
    }

    /// Returns the number of a claim. If it is about a package, feature or dependency that does not exist, returns
    /// `count`, which is the number of no claim.
    pub fn of(&self, packages: &[Package], claim: Claim) -> usize
        ensures { AreNumbers packages.now self.now → result ≡ number packages.now claim }
    {
        match claim {
            Claim::Requested => 0,
            Claim::Active(index, side) => self.at(index, side, 0),
            Claim::Used(index, side) => self.at(index, side, 1),
            Claim::Feature(index, side, feature) => {
                if index >= packages.len() || feature >= packages[index].features.len() {
                    return self.count;
                }
                self.at(index, side, feature + 2)
            }
            Claim::Dependency(index, side, dependency) => {
                if index >= packages.len() || dependency >= packages[index].dependencies.len() {
                    return self.count;
                }
                let features = packages[index].features.len();
                self.at(index, side, features + dependency + 2)
            }
        }
    }

    /// Returns the number of a package's fact at an index, on a side, or `count` if there is no such package.
    fn at(&self, index: usize, side: Side, fact: usize) -> usize
        ensures there { index < length self.now.firsts.items
            → slice_index self.now.firsts.items index + node_of fact side < self.now.count
            → result ≡ slice_index self.now.firsts.items index + node_of fact side }
        ensures nowhere { length self.now.firsts.items ≤ index → result ≡ self.now.count }
    {
        let count = self.count;
        if index >= self.firsts.len() {
            return count;
        }
        let place = fact.saturating_mul(2).saturating_add(number_of(side));
        self.firsts[index].saturating_add(place)
    }
}
