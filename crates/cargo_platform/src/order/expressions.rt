//! Equality, order and hash of expressions. They compare keys at every depth.

ghost use Rattle.std.specs.Prelude.{◌≡◌, ◌≤◌, ◌<◌, map, fold, refl, IfOk, IfSome, MatchOption, MatchResult};
ghost use Rattle.std.specs.Cmp.{Equal-is, eq_by_cmp_equiv, on_equiv, on_total, partial_equiv_from_equiv};
ghost use Rattle.std.specs.Cmp.{partial_order_from_total};
ghost use Rattle.std.specs.Ordering.{as_partial_cmp, eq_by_cmp, on};
ghost use Rattle.cargo_platform.specs.Trees.{tree_of, trees_of};
ghost use Rattle.cargo_platform.specs.Key.{rank, tree_cmp, trees_cmp};
ghost use Rattle.cargo_platform.specs.OrderLaws.{tree_total};
ghost use Rattle.cargo_platform.specs.ExpressionSizes.{node_count, node_counts};
ghost use Rattle.cargo_platform.specs.Hashing.{tree_hash, group_hash, tree_alike};

use crate::cfg::CfgExpr;
use std::cmp::Ordering;
use std::hash::{Hash, Hasher};

/// Returns the position of the form among the six.
fn rank(e: &CfgExpr) -> u8
    ensures { result ≡ rank (tree_of e.now) }
{
    match e {
        CfgExpr::Not(_) => 0,
        CfgExpr::All(_) => 1,
        CfgExpr::Any(_) => 2,
        CfgExpr::Value(_) => 3,
        CfgExpr::True => 4,
        CfgExpr::False => 5,
    }
}

// Follows last members in a loop, so that the recursion is over the members before them.
/// Compares by form, and within one form by parts.
#[cycle(compare)]
fn compare(a: &CfgExpr, b: &CfgExpr) -> Ordering
    ensures { result ≡ tree_cmp (tree_of a.now) (tree_of b.now) }
{
    let mut d = a;
    let mut e = b;
    'levels: loop {
        match compare_forms(d, e) {
            Ok((inner_d, inner_e)) => {
                d = inner_d;
                e = inner_e;
            }
            Err(order) => return order,
        }
    }
}

/// Returns the order of two expressions, or the inner expressions that it depends on.
#[cycle(compare)]
#[inline(always)]
fn compare_forms<'a>(a: &'a CfgExpr, b: &'a CfgExpr) -> Result<(&'a CfgExpr, &'a CfgExpr), Ordering>
    ensures order { MatchResult result
        (λ inner. tree_cmp (tree_of inner.0.now) (tree_of inner.1.now) ≡ tree_cmp (tree_of a.now) (tree_of b.now))
        (λ order. order ≡ tree_cmp (tree_of a.now) (tree_of b.now)) }
    ensures size { IfOk result (λ inner. node_count inner.0.now < node_count a.now) }
{
    match (a, b) {
        (CfgExpr::Not(d), CfgExpr::Not(e)) => Ok((&**d, &**e)),
        (CfgExpr::All(ds), CfgExpr::All(es)) | (CfgExpr::Any(ds), CfgExpr::Any(es)) => {
            compare_all_but_last(ds, es)
        }
        // Testing texts for equality is faster than ordering them.
        (CfgExpr::Value(c), CfgExpr::Value(d)) if c == d => Err(Ordering::Equal),
        (CfgExpr::Value(c), CfgExpr::Value(d)) => Err(c.cmp(d)),
        _ => Err(rank(a).cmp(&rank(b))),
    }
}

/// Returns the order of two lists of members, or the last members that it depends on. The last member of a shorter list
/// is beside a member that is not the last, so lists of different lengths are compared whole.
#[cycle(compare)]
#[inline(always)]
fn compare_all_but_last<'a>(
    ds: &'a [CfgExpr],
    es: &'a [CfgExpr],
) -> Result<(&'a CfgExpr, &'a CfgExpr), Ordering>
    ensures order { MatchResult result
        (λ last. tree_cmp (tree_of last.0.now) (tree_of last.1.now)
        ≡ trees_cmp (trees_of (map tree_of ds.now)) (trees_of (map tree_of es.now)))
        (λ order. order ≡ trees_cmp (trees_of (map tree_of ds.now)) (trees_of (map tree_of es.now))) }
    ensures size { IfOk result (λ last. node_count last.0.now ≤ node_counts ds.now) }
{
    let (Some((d, ds_before)), Some((e, es_before))) = (ds.split_last(), es.split_last()) else {
        return Err(compare_members(ds, es));
    };
    if ds_before.len() != es_before.len() {
        return Err(compare_members(ds, es));
    }
    let order = compare_members(ds_before, es_before);
    if order.is_eq() {
        Ok((d, e))
    } else {
        Err(order)
    }
}

/// Compares by the first difference. A list that ends first comes first.
#[cycle(compare)]
#[inline(always)]
fn compare_members(ds: &[CfgExpr], es: &[CfgExpr]) -> Ordering
    ensures { result ≡ trees_cmp (trees_of (map tree_of ds.now)) (trees_of (map tree_of es.now)) }
{
    for (d, e) in ds.iter().zip(es) {
        let order = compare(d, e);
        if order != Ordering::Equal {
            return order;
        }
    }
    ds.len().cmp(&es.len())
}

impl PartialEq for CfgExpr {
    // Equality, order and hash compare keys: values without their raw marks. The order is total.
    ghost eq = { on tree_of (eq_by_cmp tree_cmp) };

    ghost laws = { partial_equiv_from_equiv (on_equiv tree_of (eq_by_cmp_equiv tree_total)) };

    fn eq(&self, other: &CfgExpr) -> bool {
        compare(self, other).is_eq()
    }
}

impl Eq for CfgExpr {
    ghost laws = { on_equiv tree_of (eq_by_cmp_equiv tree_total) };
}

impl PartialOrd for CfgExpr {
    ghost partial_cmp = { as_partial_cmp (on tree_of tree_cmp) };

    ghost laws = { partial_order_from_total (on_total tree_of tree_total) };

    fn partial_cmp(&self, other: &CfgExpr) -> Option<Ordering> {
        Some(self.cmp(other))
    }
}

impl Ord for CfgExpr {
    // Equality, order and hash compare keys: values without their raw marks. The order is total.
    ghost cmp = { on tree_of tree_cmp };

    ghost total = { on_total tree_of tree_total };

    ghost matches_partial_cmp = { λ a b. refl };

    ghost matches_eq = { λ a b. refl };

    fn cmp(&self, other: &CfgExpr) -> Ordering {
        compare(self, other)
    }
}

// Follows last members in a loop, so that the recursion is over the members before them.
/// Feeds the form, and then the parts.
#[cycle(feed)]
fn feed<H: Hasher>(e: &CfgExpr, state: &mut H)
    ensures { state.new ≡ fold H.write state.old (tree_hash (tree_of e.now)) }
{
    let mut part = e;
    'levels: loop {
        let last = match part {
            CfgExpr::Not(inner) => {
                state.write_u8(0);
                part = inner;
                continue;
            }
            CfgExpr::All(members) => {
                state.write_u8(1);
                feed_all_but_last(members, state)
            }
            CfgExpr::Any(members) => {
                state.write_u8(2);
                feed_all_but_last(members, state)
            }
            CfgExpr::Value(c) => {
                state.write_u8(3);
                c.hash(state);
                return;
            }
            CfgExpr::True => return state.write_u8(4),
            CfgExpr::False => return state.write_u8(5),
        };
        match last {
            Some(member) => part = member,
            None => return,
        }
    }
}

/// Feeds the number of members, and each but the last, which it returns.
#[cycle(feed)]
#[inline(always)]
fn feed_all_but_last<'a, H: Hasher>(members: &'a [CfgExpr], state: &mut H) -> Option<&'a CfgExpr>
    ensures fed { MatchOption result
        (state.new ≡ fold H.write state.old (group_hash (trees_of (map tree_of members.now))))
        (λ last. fold H.write state.new (tree_hash (tree_of last.now))
        ≡ fold H.write state.old (group_hash (trees_of (map tree_of members.now)))) }
    ensures size { IfSome result (λ last. node_count last.now ≤ node_counts members.now) }
{
    state.write_usize(members.len());
    let Some((first, others)) = members.split_first() else {
        return None;
    };
    let mut e = first;
    let mut left = others;
    'members: while let Some((next, others)) = left.split_first() {
        feed(e, state);
        e = next;
        left = others;
    }
    Some(e)
}

impl Hash for CfgExpr {
    // Equality, order and hash compare keys: values without their raw marks. The order is total.
    ghost hash_input = { λ e. tree_hash (tree_of e) };

    ghost respects_eq = { λ a b same. tree_alike (tree_of a) (tree_of b)
        ((Equal-is (tree_cmp (tree_of a) (tree_of b))).0 same) };

    fn hash<H: Hasher>(&self, state: &mut H) {
        feed(self, state);
    }
}
