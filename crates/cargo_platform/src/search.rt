//! Searches a sorted list.
//!
//! The search sees what it looks for only as `Sought`, whose one method counts each comparison by a type that the
//! search can't create a value of. A `Sorted` list can be searched, and read in no other way.

ghost use Rattle.std.specs.Prelude.{◌≡◌, ℕ, ◌+◌, ◌-◌, ◌*◌, ◌^◌, ◌≤◌, length};
ghost use Rattle.std.specs.declared.cmp.Ordering.{Ordering};
ghost use Rattle.std.specs.Ordering.{ordering_index, is_eq};
ghost use Rattle.std.specs.List.{list_any};
ghost use Rattle.std.specs.List.Sorted.{IsNonDecreasingBy};
ghost use Rattle.cargo_platform.specs.Inside.Asking.{Counts};

use crate::asking::Tally;
use std::cmp::Ordering;

/// What to find in a sorted list.
pub(crate) trait Sought<A, T: Tally> {
    // The order of a member of the list and the sought value.
    ghost order: { Self → A → Ordering };

    /// Compares a member and the sought value once, and returns their order.
    fn compare(&self, tally: &mut T, member: &A) -> Ordering
        ensures order { result ≡ order self.now member.now }
        ensures count { Counts 1 0 (T.asks tally.old) (T.asks tally.new) };
}

/// A sorted list, which can be searched and read in no other way.
#[derive(Drop)]
pub(crate) struct Sorted<A> {
    members: Vec<A>,
}

impl<A> Sorted<A> {
    /// Wraps these members, which are sorted.
    pub fn new(members: Vec<A>) -> Sorted<A>
        ensures { result.members ≡ members }
    {
        Sorted { members }
    }

    /// Returns whether the list has the sought value. The number of comparisons is at most one more than the logarithm
    /// to base 2 of the number of members, rounded down. There are none in an empty list.
    #[inline(always)]
    pub fn has<S: Sought<A, T>, T: Tally>(&self, sought: &S, tally: &mut T) -> bool
        requires { IsNonDecreasingBy (λ a. ordering_index (S.order sought.now a)) self.now.members.items }
        ensures found { result ≡ list_any (λ a. is_eq (S.order sought.now a)) self.now.members.items }
        ensures comparisons { 2 ^ (T.asks tally.new - T.asks tally.old) ≤ 2 * length self.now.members.items + 1 }
    {
        let mut left = self.members.as_slice();
        'halves: loop {
            let (before, others) = left.split_at(left.len() / 2);
            let Some((middle, after)) = others.split_first() else {
                return false;
            };
            match sought.compare(tally, middle) {
                Ordering::Less => left = after,
                Ordering::Equal => return true,
                Ordering::Greater => left = before,
            }
        }
    }
}
