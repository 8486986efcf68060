//! Goals as operations on numbers of pairs, and a look ahead. The operations are evaluated over the 64 sets of six open
//! pairs at once, a bit of a word for each set: where no bit is left, the goals are missed whatever these pairs are.
//! The same pass finds out whether what is known of pairs decides the goals, or else an open pair on which they depend.

ghost use Rattle.std.specs.Prelude.{◌≡◌, ◌≤◌, ◌<◌, ◌+◌, ◌++◌, false, ◌∷◌, [], ℕ, Bool, true, map, reverse, drop, List};
ghost use Rattle.std.specs.Prelude.{IfOk, OnOk, IfSome, Some, None, length};
ghost use Rattle.std.specs.List.{All};
ghost use Rattle.std.specs.Int.{bit_at};
ghost use Rattle.std.specs.FinSet.{contains};
ghost use Rattle.cargo_platform.specs.Trees.{tree_of, trees_of, value_of};
ghost use Rattle.cargo_platform.specs.Facts.{Pair, FactSet, pair_of, truth};
ghost use Rattle.cargo_platform.specs.ExpressionSizes.{node_count, node_counts};
ghost use Rattle.exact_answers.specs.Goals.{true_as_wanted, StandsAt, pairs_of, IsAsTold};
ghost use Rattle.exact_answers.specs.Asking.{some_asks};
ghost use Rattle.exact_answers.specs.Inside.Paths.{Base, Turn, told_by_path, told_on, base_of, turns};
ghost use Rattle.exact_answers.specs.Inside.Searches.{SaysStepOn};
ghost use Rattle.exact_answers.specs.Inside.Ahead.{both, gathered, meets, done, worked_out, outcome, goals_size};
ghost use Rattle.exact_answers.specs.Inside.Ahead.{table_pairs, AreAmong, HasNumber, AsksAmong};
ghost use Rattle.exact_answers.specs.Inside.Ahead.{IsOutlook, Fits, IsOpenAt, IsSeen, Says, Covers, AreTold, IsNext};

use crate::goal_diagrams::{Goal, is_same};
use crate::path::Path;
use crate::search::GoalsState;
use cargo_platform::{Cfg, CfgExpr};
use partial_facts::Knowledge;
use std::alloc::{AllocError, Global};
use std::collections::BTreeMap;

/// A step that evaluates whether goals are met. The results are a list, to which each step appends.
#[derive(Clone, Copy)]
pub enum Operation<'a> {
    /// A pair, its wanted truth, and its number.
    Pair(&'a Cfg, bool, usize),
    /// A goal that is met, or missed, over each set of facts.
    Is(bool),
    /// A group of the last findings: whether each of them is met, or one. The number is their count.
    Group(bool, usize),
}

/// A pair with whether it is a fact, if that is known; and the sets that may have it and those that may lack it, a bit
/// for each set.
#[derive(Clone, Copy)]
pub struct PairSets<'a> {
    pub pair: &'a Cfg,
    pub tells: Option<bool>,
    pub with: u64,
    pub without: u64,
}

/// Whether a goal is met by what is known of pairs.
#[derive(Clone, Copy)]
pub enum GoalState {
    /// Whether it is met.
    Known(bool),
    /// It depends on the pair with this number, which is open.
    Open(usize),
}

/// The finding on a goal: the sets over which it may be met, and what is seen of it.
#[derive(Clone, Copy)]
pub struct Finding {
    pub sets: u64,
    pub seen: GoalState,
}

/// The operations that evaluate goals, and the pairs in the goals in the order of their numbers.
#[derive(Drop)]
pub struct GoalEvaluator<'a> {
    pub pairs: Vec<&'a Cfg>,
    pub operations: Vec<Operation<'a>>,
}

impl<'a> GoalEvaluator<'a> {
    /// Returns the operations that evaluate these goals.
    pub fn new(alloc: Global, goals: &[Goal<'a>]) -> Result<GoalEvaluator<'a>, AllocError>
        ensures { IfOk result (λ outlook. IsOutlook outlook goals.now) }
    {
        let mut pending = backwards(alloc, goals)?;
        let mut outlook = GoalEvaluator {
            pairs: Vec::new(alloc),
            operations: Vec::new(alloc),
        };
        outlook
            .operations
            .push(Operation::Group(true, goals.len()))?;
        let mut numbers = BTreeMap::new(alloc);
        'goals: while let Some(goal) = pending.pop() {
            outlook.add(&mut pending, &mut numbers, goal)?;
        }
        outlook.operations.reverse();
        Ok(outlook)
    }

    /// Adds what a goal is made of: an operation, the goals inside it, or both.
    fn add(
        &mut self,
        pending: &mut Vec<Goal<'a>>,
        numbers: &mut BTreeMap<&'a Cfg, usize>,
        goal: Goal<'a>,
    ) -> Result<(), AllocError>
        ensures same { OnOk result ((s : FactSet) → outcome s self.new (reverse pending.new.items)
            ≡ outcome s self.old (goal.entry ∷ reverse pending.old.items)) }
        ensures size { OnOk result (goals_size pending.new.items + 1
            ≤ node_count goal.entry.e.now + goals_size pending.old.items) }
        ensures numbered { OnOk result (All (HasNumber (pairs_of self.old.pairs.items)) self.old.operations.items
            → All (HasNumber (pairs_of self.new.pairs.items)) self.new.operations.items) }
        ensures asked { OnOk result ((among : Pair → Bool) → AsksAmong among goal.entry
            → All (AsksAmong among) pending.old.items → AreAmong among (pairs_of self.old.pairs.items)
            → All (AsksAmong among) pending.new.items × AreAmong among (pairs_of self.new.pairs.items)) }
    {
        let wanted = goal.wanted;
        match goal.e {
            CfgExpr::Not(inner) => {
                pending.push(Goal {
                    e: inner,
                    wanted: !wanted,
                })?;
                Ok(())
            }
            CfgExpr::All(members) => {
                self.operations
                    .push(Operation::Group(wanted, members.len()))?;
                add_members(pending, members, wanted)
            }
            CfgExpr::Any(members) => {
                self.operations
                    .push(Operation::Group(!wanted, members.len()))?;
                add_members(pending, members, wanted)
            }
            CfgExpr::Value(c) => {
                let number = number_or_next(&mut self.pairs, numbers, c)?;
                self.operations.push(Operation::Pair(c, wanted, number))?;
                Ok(())
            }
            CfgExpr::True => {
                self.operations.push(Operation::Is(wanted))?;
                Ok(())
            }
            CfgExpr::False => {
                self.operations.push(Operation::Is(!wanted))?;
                Ok(())
            }
        }
    }

    /// Returns what is known of the goals on the path, or by a look ahead.
    pub fn step(&self, alloc: Global, path: &Path<'a>) -> Result<GoalsState<'a>, AllocError>
        requires { (gs : List Goal) × IsOutlook self.now gs }
        ensures { IfOk result (λ step. (gs : List Goal) → IsOutlook self.now gs
            → SaysStepOn step (base_of path.now.known.now) gs (turns path.now)) }
    {
        let table = pair_sets_of(alloc, &self.pairs, path)?;
        let found = work_out_all(alloc, &self.operations, &table)?;
        if found.sets == 0 {
            return Ok(GoalsState::Decided(false));
        }
        match found.seen {
            GoalState::Known(met) => Ok(GoalsState::Decided(met)),
            GoalState::Open(number) => Ok(GoalsState::Open(open_pair(&table, number))),
        }
    }
}

/// Returns the goals in reverse order.
fn backwards<'a>(alloc: Global, goals: &[Goal<'a>]) -> Result<Vec<Goal<'a>>, AllocError>
    ensures { IfOk result (λ all. all.items ≡ reverse goals.now) }
{
    let mut all = Vec::from_slice(alloc, goals)?;
    all.reverse();
    Ok(all)
}

/// Adds the members as goals, the first one last.
fn add_members<'a>(
    pending: &mut Vec<Goal<'a>>,
    members: &'a [CfgExpr],
    wanted: bool,
) -> Result<(), AllocError>
    ensures met { OnOk result ((s : FactSet) → map (meets s) (reverse pending.new.items)
        ≡ map (λ e. true_as_wanted wanted (truth s (tree_of e))) members.now
        ++ map (meets s) (reverse pending.old.items)) }
    ensures size { OnOk result (goals_size pending.new.items ≡ node_counts members.now + goals_size pending.old.items) }
    ensures asked { OnOk result ((among : Pair → Bool)
        → ((p : Pair) → some_asks (trees_of (map tree_of members.now)) p ≡ true → among p ≡ true)
        → All (AsksAmong among) pending.old.items → All (AsksAmong among) pending.new.items) }
{
    let mut left = members;
    'members: while let Some((e, others)) = left.split_last() {
        pending.push(Goal { e, wanted })?;
        left = others;
    }
    Ok(())
}

/// Returns the number that is recorded for the pair, if the pair has it.
fn recorded_number<'a>(
    pairs: &[&'a Cfg],
    numbers: &BTreeMap<&'a Cfg, usize>,
    c: &'a Cfg,
) -> Option<usize>
    ensures { IfSome result (λ n. StandsAt (pairs_of pairs.now) n (pair_of (value_of c.now))) }
{
    let number = *numbers.get(&c)?;
    if number < pairs.len() && is_same(c, pairs[number]) {
        Some(number)
    } else {
        None
    }
}

/// Returns the number of the pair. A new pair gets the next one, which is recorded, since a condition may have many
/// pairs.
fn number_or_next<'a>(
    pairs: &mut Vec<&'a Cfg>,
    numbers: &mut BTreeMap<&'a Cfg, usize>,
    c: &'a Cfg,
) -> Result<usize, AllocError>
    ensures number { IfOk result (λ n. StandsAt (pairs_of pairs.new.items) n (pair_of (value_of c.now))) }
    ensures kept { OnOk result ((n : ℕ) (p : Pair) → StandsAt (pairs_of pairs.old.items) n p
        → StandsAt (pairs_of pairs.new.items) n p) }
    ensures among { OnOk result ((among : Pair → Bool) → among (pair_of (value_of c.now)) ≡ true
        → AreAmong among (pairs_of pairs.old.items) → AreAmong among (pairs_of pairs.new.items)) }
{
    match recorded_number(pairs, numbers, c) {
        Some(number) => Ok(number),
        None => {
            let number = pairs.len();
            let _none = numbers.insert(c, number)?;
            pairs.push(c)?;
            Ok(number)
        }
    }
}

/// Returns all sets, or none.
fn all_or_none(all: bool) -> u64
    ensures { (l : ℕ) → l < 64 → all ≡ true → bit_at result l ≡ 1 }
{
    if all { u64::MAX } else { 0 }
}

/// Returns the finding on a goal whose truth is known.
fn literal(met: bool) -> Finding
    ensures { (table : List PairSets) (l : ℕ) → l < 64 → Says table l result met }
{
    Finding {
        sets: all_or_none(met),
        seen: GoalState::Known(met),
    }
}

/// Returns the sets of both, or of either.
fn joined_sets(each: bool, word: u64, other: u64) -> u64
    ensures { (l : ℕ) (a b : Bool) → (a ≡ true → bit_at word l ≡ 1) → (b ≡ true → bit_at other l ≡ 1)
        → both each a b ≡ true → bit_at result l ≡ 1 }
{
    if each { word & other } else { word | other }
}

/// Returns what is seen of two goals together. If one is open, the first such goal gives the open pair.
fn joined_seen(each: bool, one: GoalState, other: GoalState) -> GoalState
    ensures { (table : List PairSets) (a b : Bool) → IsSeen table one a → IsSeen table other b
        → IsSeen table result (both each a b) }
{
    match one {
        GoalState::Known(met) => { if met == each { other } else { one } }
        GoalState::Open(_) => match other {
            GoalState::Known(met) => { if met == each { one } else { other } }
            GoalState::Open(_) => one,
        },
    }
}

/// Returns the finding on two goals together.
fn joined(each: bool, one: Finding, other: Finding) -> Finding
    ensures { (table : List PairSets) (l : ℕ) (a b : Bool) → Says table l one a → Says table l other b
        → Says table l result (both each a b) }
{
    let sets = joined_sets(each, one.sets, other.sets);
    let seen = joined_seen(each, one.seen, other.seen);
    Finding { sets, seen }
}

/// Returns the sets of a pair that is known to be a fact, or known not to be one.
fn told<'a>(pair: &'a Cfg, fact: bool) -> PairSets<'a>
    ensures same { pair_of (value_of result.pair.now) ≡ pair_of (value_of pair.now) }
    ensures tells { result.tells ≡ Some fact }
    ensures fits { (s : FactSet) (l : ℕ) → l < 64 → contains s (pair_of (value_of pair.now)) ≡ fact → Fits s l result }
{
    PairSets {
        pair,
        tells: Some(fact),
        with: all_or_none(fact),
        without: all_or_none(!fact),
    }
}

/// Returns the sets of an open pair, which is a fact in the sets of a pattern.
fn split<'a>(pair: &'a Cfg, pattern: u64) -> PairSets<'a>
    ensures same { pair_of (value_of result.pair.now) ≡ pair_of (value_of pair.now) }
    ensures tells { result.tells ≡ None }
    ensures fits { (s : FactSet) (l : ℕ) → l < 64
        → (contains s (pair_of (value_of pair.now)) ≡ true → bit_at pattern l ≡ 1)
        → (contains s (pair_of (value_of pair.now)) ≡ false → bit_at pattern l ≡ 0) → Fits s l result }
{
    PairSets {
        pair,
        tells: None,
        with: pattern,
        without: pattern ^ u64::MAX,
    }
}

/// Returns the sets of a pair that any set may have.
fn unsplit<'a>(pair: &'a Cfg) -> PairSets<'a>
    ensures same { pair_of (value_of result.pair.now) ≡ pair_of (value_of pair.now) }
    ensures tells { result.tells ≡ None }
    ensures fits { (s : FactSet) (l : ℕ) → l < 64 → Fits s l result }
{
    PairSets {
        pair,
        tells: None,
        with: u64::MAX,
        without: u64::MAX,
    }
}

/// Returns the sets of a pair, and the patterns that are left.
fn next_pair_sets<'a, 'b>(
    pair: &'a Cfg,
    tells: Option<bool>,
    patterns: &'b [u64],
) -> (PairSets<'a>, &'b [u64])
    ensures same { pair_of (value_of result.0.pair.now) ≡ pair_of (value_of pair.now) }
    ensures tells { result.0.tells ≡ tells }
    ensures next { IsNext (pair_of (value_of pair.now)) tells patterns.now result.0 result.1.now }
{
    match tells {
        Some(fact) => (told(pair, fact), patterns),
        None => match patterns.split_first() {
            Some((pattern, others)) => (split(pair, *pattern), others),
            None => (unsplit(pair), patterns),
        },
    }
}

/// Returns the sets of the pairs on the path. The first six open pairs distinguish the sets: each set of facts that is
/// possible there agrees with one of the 64.
fn pair_sets_of<'a>(
    alloc: Global,
    pairs: &[&'a Cfg],
    path: &Path<'a>,
) -> Result<Vec<PairSets<'a>>, AllocError>
    ensures pairs { IfOk result (λ table. table_pairs table.items ≡ pairs_of pairs.now) }
    ensures told { IfOk result (λ table. AreTold (base_of path.now.known.now) (turns path.now) table.items) }
    ensures chosen { IfOk result (λ table. (s : FactSet) → IsAsTold (told_by_path path.now) s
        → (l : ℕ) × (l < 64) × All (Fits s l) table.items) }
{
    let patterns = [
        0xAAAA_AAAA_AAAA_AAAA_u64,
        0xCCCC_CCCC_CCCC_CCCC,
        0xF0F0_F0F0_F0F0_F0F0,
        0xFF00_FF00_FF00_FF00,
        0xFFFF_0000_FFFF_0000,
        0xFFFF_FFFF_0000_0000,
    ];
    let mut table = Vec::with_capacity(alloc, pairs.len())?;
    let mut left: &[u64] = &patterns;
    for pair in pairs {
        let (pair_sets, others) = next_pair_sets(pair, path.tells(pair), left);
        table.push(pair_sets)?;
        left = others;
    }
    Ok(table)
}

/// Returns the sets over which the pair may have this truth.
fn sets_of(sets: &PairSets<'_>, wanted: bool) -> u64
    ensures { (s : FactSet) (l : ℕ) → Fits s l sets.now
        → true_as_wanted wanted (contains s (pair_of (value_of sets.now.pair.now))) ≡ true → bit_at result l ≡ 1 }
{
    if wanted { sets.with } else { sets.without }
}

/// Returns what is seen of a pair with a wanted truth.
fn seen_of(tells: Option<bool>, wanted: bool, number: usize) -> GoalState
    ensures { (table : List PairSets) (b : Bool) → (tells ≡ None → IsOpenAt table number) → IfSome tells (λ t. b ≡ t)
        → IsSeen table result (true_as_wanted wanted b) }
{
    match tells {
        Some(truth) => GoalState::Known(truth == wanted),
        None => GoalState::Open(number),
    }
}

/// Returns the finding on the pair with this number and a wanted truth.
fn finding_of(table: &[PairSets<'_>], wanted: bool, number: usize) -> Finding
    requires { number < length table.now }
    ensures { (s : FactSet) (l : ℕ) (p : Pair) → All (Fits s l) table.now → StandsAt (table_pairs table.now) number p
        → Says table.now l result (true_as_wanted wanted (contains s p)) }
{
    let pair_sets = &table[number];
    let sets = sets_of(pair_sets, wanted);
    let seen = seen_of(pair_sets.tells, wanted, number);
    Finding { sets, seen }
}

/// Removes the last `count` findings, and joins them.
fn gathered(findings: &mut Vec<Finding>, each: bool, count: usize) -> Finding
    ensures { (table : List PairSets) (l : ℕ) (bs : List Bool) → l < 64 → Covers table l (reverse findings.old.items) bs
        → Says table l result (gathered each count bs)
        × Covers table l (reverse findings.new.items) (drop count bs) }
{
    let mut finding = literal(each);
    let mut left = count;
    'findings: while left > 0 {
        match findings.pop() {
            Some(other) => {
                finding = joined(each, finding, other);
                left -= 1;
            }
            None => return finding,
        }
    }
    finding
}

fn pushed(findings: &mut Vec<Finding>, finding: Finding) -> Result<(), AllocError>
    ensures { OnOk result (reverse findings.new.items ≡ finding ∷ reverse findings.old.items) }
{
    findings.push(finding)?;
    Ok(())
}

/// Evaluates one operation.
fn work_out(
    operation: Operation<'_>,
    table: &[PairSets<'_>],
    findings: &mut Vec<Finding>,
) -> Result<(), AllocError>
    requires { HasNumber (table_pairs table.now) operation }
    ensures { OnOk result ((s : FactSet) (l : ℕ) (bs : List Bool) → l < 64 → All (Fits s l) table.now
        → Covers table.now l (reverse findings.old.items) bs
        → Covers table.now l (reverse findings.new.items) (done s operation.entry bs)) }
{
    match operation {
        Operation::Pair(_pair, wanted, number) => {
            let finding = finding_of(table, wanted, number);
            pushed(findings, finding)
        }
        Operation::Is(met) => pushed(findings, literal(met)),
        Operation::Group(each, count) => {
            let finding = gathered(findings, each, count);
            pushed(findings, finding)
        }
    }
}

/// Returns the last finding.
fn last(findings: Vec<Finding>) -> Finding
    ensures { (table : List PairSets) (l : ℕ) (b : Bool) → Covers table l (reverse findings.items) (b ∷ [])
        → Says table l result b }
{
    let mut findings = findings;
    match findings.pop() {
        Some(finding) => finding,
        None => literal(true),
    }
}

/// Returns the finding on all goals together.
fn work_out_all(
    alloc: Global,
    operations: &[Operation<'_>],
    table: &[PairSets<'_>],
) -> Result<Finding, AllocError>
    requires { All (HasNumber (table_pairs table.now)) operations.now }
    ensures { IfOk result (λ finding. (s : FactSet) (l : ℕ) (b : Bool) → l < 64 → All (Fits s l) table.now
        → worked_out s operations.now [] ≡ b ∷ [] → Says table.now l finding b) }
{
    let mut findings = Vec::new(alloc);
    for operation in operations {
        work_out(*operation, table, &mut findings)?;
    }
    Ok(last(findings))
}

/// Returns the pair with this number, which is open.
fn open_pair<'a>(table: &[PairSets<'a>], number: usize) -> &'a Cfg
    requires short { number < length table.now }
    requires untold { IsOpenAt table.now number }
    ensures stands { StandsAt (table_pairs table.now) number (pair_of (value_of result.now)) }
    ensures open { (k : Base) (ds : List Turn) → AreTold k ds table.now
        → told_on k ds (pair_of (value_of result.now)) ≡ None }
{
    let pair_sets = &table[number];
    pair_sets.pair
}
