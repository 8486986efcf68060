//! The table of nodes.

ghost use Rattle.std.specs.Prelude.{◌≡◌, ◌<◌, ◌≤◌, ℕ, Bool, true, not, [], IfOk, IfSome, IsSome, if◌then◌else◌};
ghost use Rattle.std.specs.List.{All};
ghost use Rattle.exact_answers.specs.Diagrams.{joint, pick, value, nodes_of, places, AreEarlier, IsJoin};
ghost use Rattle.exact_answers.specs.Diagrams.{IsJoinOf, IsTable, IsMade, IsNodeAt, IsNode, AreHalves, Agrees};

use std::alloc::{AllocError, Global};

/// The reason why no diagram is made.
#[derive(Drop)]
pub enum DiagramError {
    /// The diagram would be too large.
    TooLarge,
    Memory(AllocError),
}

impl From<AllocError> for DiagramError {
    fn from(refused: AllocError) -> DiagramError {
        DiagramError::Memory(refused)
    }
}

/// A node, which tests the pair with this number, and continues at one place without the fact and at another with it.
#[derive(Clone, Copy)]
pub struct Node {
    pub number: usize,
    pub without: usize,
    pub with: usize,
    /// The place of a node with the same hint, or 0.
    pub next: usize,
}

/// Two places that were joined, with the place of the result.
#[derive(Clone, Copy)]
pub struct JoinEntry {
    pub each: bool,
    pub one: usize,
    pub other: usize,
    pub place: usize,
}

/// A pair by its number, and whether it is taken as a fact.
#[derive(Clone, Copy)]
pub struct Choice {
    pub number: usize,
    pub holds: bool,
}

/// Two places, split by a pair that one of them tests first.
#[derive(Clone, Copy)]
pub struct Cofactors {
    pub number: usize,
    pub one_without: usize,
    pub other_without: usize,
    pub one_with: usize,
    pub other_with: usize,
}

/// The place of what is false over each set of facts.
pub const FALSE: usize = 0;

/// The place of what is true over each set of facts.
pub const TRUE: usize = 1;

/// The nodes. The first one is at place 2, and the places below are the two literals. Each node continues at places
/// before its own.
#[derive(Drop)]
pub struct Table {
    pub nodes: Vec<Node>,
    /// By a hint, the last node with that hint, or 0.
    pub lasts: Vec<usize>,
    /// By a hint, the last places that were joined with that hint.
    pub joined: Vec<JoinEntry>,
    pub most_nodes: usize,
}

/// Returns the place of a literal.
pub fn literal(truth: bool) -> usize
    ensures { result ≡ (if truth then 1 else 0) }
{
    if truth { TRUE } else { FALSE }
}

fn zeros(alloc: Global, count: usize) -> Result<Vec<usize>, AllocError> {
    let mut all = Vec::with_capacity(alloc, count)?;
    for _ in 0..count {
        all.push(0)?;
    }
    Ok(all)
}

fn nothing_joined(alloc: Global, count: usize) -> Result<Vec<JoinEntry>, AllocError>
    ensures { IfOk result (λ all. All (IsJoin []) all.items) }
{
    let mut all = Vec::with_capacity(alloc, count)?;
    'entries: for _ in 0..count {
        all.push(JoinEntry {
            each: true,
            one: FALSE,
            other: FALSE,
            place: FALSE,
        })?;
    }
    Ok(all)
}

/// Returns a number below the count that differs for most different arguments.
fn hint(first: usize, second: usize, third: usize, count: usize) -> usize {
    let mixed = first
        .wrapping_mul(0x9E37_79B9_7F4A_7C15)
        .wrapping_add(second)
        .wrapping_mul(0xC2B2_AE3D_27D4_EB4F)
        .wrapping_add(third)
        .wrapping_mul(0x1656_67B1_9E37_79F9);
    (mixed >> 20).checked_rem(count).unwrap_or(0)
}

/// Returns whether the node tests the pair with this number, and continues at these places.
fn is_same(node: Node, number: usize, without: usize, with: usize) -> bool
    ensures { result ≡ true → (node.number ≡ number) × (node.without ≡ without) × (node.with ≡ with) }
{
    node.number == number && node.without == without && node.with == with
}

/// Returns the place at which a node continues if its pair is a fact, or if it is not.
fn chosen(node: Node, holds: bool) -> usize
    ensures { result ≡ (if holds then node.with else node.without) }
{
    if holds { node.with } else { node.without }
}

/// Returns whether these places were joined.
fn is_join(joined: JoinEntry, each: bool, one: usize, other: usize) -> bool
    ensures { result ≡ true → (joined.each ≡ each) × (joined.one ≡ one) × (joined.other ≡ other) }
{
    joined.each == each && joined.one == one && joined.other == other
}

impl Table {
    /// Returns a table without nodes, with room for this many.
    pub fn new(alloc: Global, most_nodes: usize) -> Result<Table, AllocError>
        ensures { IfOk result (λ table. IsTable (nodes_of table) table.joined.items) }
    {
        let nodes = Vec::new(alloc);
        let lasts = zeros(alloc, most_nodes)?;
        let joined = nothing_joined(alloc, most_nodes)?;
        Ok(Table {
            nodes,
            lasts,
            joined,
            most_nodes,
        })
    }

    /// Returns the node at a place, or `None` for a literal.
    fn at(&self, place: usize) -> Option<Node>
        requires { AreEarlier (nodes_of self.now) }
        ensures node { IfSome result (IsNodeAt (nodes_of self.now) place) }
        ensures some { 2 ≤ place → place < places (nodes_of self.now) → IsSome result }
    {
        if place < 2 {
            None
        } else {
            self.nodes.get(place - 2).copied()
        }
    }

    /// Returns the place of a node among those with the same hint, from the last one on.
    fn found(&self, last: usize, number: usize, without: usize, with: usize) -> Option<usize>
        requires { AreEarlier (nodes_of self.now) }
        ensures { IfSome result (IsNode (nodes_of self.now) number without with) }
    {
        let mut place = last;
        'places: while let Some(node) = self.at(place) {
            if is_same(node, number, without, with) {
                return Some(place);
            }
            if node.next >= place {
                return None;
            }
            place = node.next;
        }
        None
    }

    /// Adds a node.
    fn push(&mut self, node: Node) -> Result<usize, AllocError>
        requires table { IsTable (nodes_of self.old) self.old.joined.items }
        requires without { node.without < places (nodes_of self.old) }
        requires with { node.with < places (nodes_of self.old) }
        requires differ { node.without ≡ node.with → ⊥ }
        ensures made { IfOk result (IsMade self.old self.new) }
        ensures means { IfOk result (λ place. (holds : ℕ → Bool) → value holds (nodes_of self.new) place
            ≡ pick (holds node.number) (value holds (nodes_of self.old) node.with)
            (value holds (nodes_of self.old) node.without)) }
    {
        let place = self.nodes.len() + 2;
        self.nodes.push(node)?;
        Ok(place)
    }

    /// Returns the place of a node that tests a pair, which is added unless it exists. If both places are the same,
    /// there is no node, and it is that place.
    pub fn node(
        &mut self,
        number: usize,
        without: usize,
        with: usize,
    ) -> Result<usize, DiagramError>
        requires table { IsTable (nodes_of self.old) self.old.joined.items }
        requires without { without < places (nodes_of self.old) }
        requires with { with < places (nodes_of self.old) }
        ensures made { IfOk result (IsMade self.old self.new) }
        ensures means { IfOk result (λ place. (holds : ℕ → Bool) → value holds (nodes_of self.new) place
            ≡ pick (holds number) (value holds (nodes_of self.old) with)
            (value holds (nodes_of self.old) without)) }
    {
        if without == with {
            return Ok(with);
        }
        let at = hint(number, without, with, self.lasts.len());
        let last = self.last(at);
        if let Some(place) = self.found(last, number, without, with) {
            return Ok(place);
        }
        let next = last;
        self.new_node(
            at,
            Node {
                number,
                without,
                with,
                next,
            },
        )
    }

    /// Adds a node that is the last one with this hint.
    fn new_node(&mut self, at: usize, node: Node) -> Result<usize, DiagramError>
        requires table { IsTable (nodes_of self.old) self.old.joined.items }
        requires without { node.without < places (nodes_of self.old) }
        requires with { node.with < places (nodes_of self.old) }
        requires differ { node.without ≡ node.with → ⊥ }
        ensures made { IfOk result (IsMade self.old self.new) }
        ensures means { IfOk result (λ place. (holds : ℕ → Bool) → value holds (nodes_of self.new) place
            ≡ pick (holds node.number) (value holds (nodes_of self.old) node.with)
            (value holds (nodes_of self.old) node.without)) }
    {
        if self.nodes.len() >= self.most_nodes {
            return Err(DiagramError::TooLarge);
        }
        let place = self.push(node)?;
        self.place_last(at, place);
        Ok(place)
    }

    /// Returns the last node with this hint, or 0.
    fn last(&self, at: usize) -> usize {
        if at < self.lasts.len() {
            self.lasts[at]
        } else {
            0
        }
    }

    /// Records the place of the last node with this hint.
    fn place_last(&mut self, at: usize, place: usize)
        ensures nodes { nodes_of self.new ≡ nodes_of self.old }
        ensures joined { self.new.joined ≡ self.old.joined }
    {
        if at < self.lasts.len() {
            self.lasts[at] = place;
        }
    }

    /// Returns both places, split by the pair that comes first.
    fn halves(&self, one: usize, other: usize) -> Result<Cofactors, DiagramError>
        requires { AreEarlier (nodes_of self.now) }
        ensures { IfOk result (AreHalves (nodes_of self.now) one other) }
    {
        match self.at(one) {
            Some(first) => match self.at(other) {
                Some(second) => Ok(self.halves_of(one, first, other, second)),
                None => Err(DiagramError::TooLarge),
            },
            None => Err(DiagramError::TooLarge),
        }
    }

    /// Returns both places, which have these nodes, split by the pair that comes first.
    fn halves_of(&self, one: usize, first: Node, other: usize, second: Node) -> Cofactors
        requires first { IsNodeAt (nodes_of self.now) one first }
        requires second { IsNodeAt (nodes_of self.now) other second }
        ensures { AreHalves (nodes_of self.now) one other result }
    {
        let left = first.number;
        let right = second.number;
        if left < right {
            Cofactors {
                number: left,
                one_without: first.without,
                other_without: other,
                one_with: first.with,
                other_with: other,
            }
        } else if right < left {
            Cofactors {
                number: right,
                one_without: one,
                other_without: second.without,
                one_with: one,
                other_with: second.with,
            }
        } else {
            Cofactors {
                number: left,
                one_without: first.without,
                other_without: second.without,
                one_with: first.with,
                other_with: second.with,
            }
        }
    }

    /// Returns the recorded place of two joined places.
    fn recalled(&self, at: usize, each: bool, one: usize, other: usize) -> Option<usize>
        requires { All (IsJoin (nodes_of self.now)) self.now.joined.items }
        ensures { IfSome result (IsJoinOf (nodes_of self.now) each one other) }
    {
        if at < self.joined.len() {
            let joined = self.joined[at];
            if is_join(joined, each, one, other) {
                return Some(joined.place);
            }
        }
        None
    }

    /// Records the place of two joined places.
    fn remember(&mut self, at: usize, joined: JoinEntry)
        requires table { IsTable (nodes_of self.old) self.old.joined.items }
        requires joined { IsJoin (nodes_of self.old) joined }
        ensures nodes { nodes_of self.new ≡ nodes_of self.old }
        ensures table { IsTable (nodes_of self.new) self.new.joined.items }
    {
        if at < self.joined.len() {
            self.joined[at] = joined;
        }
    }

    /// Returns the place of two joined places, if it is one of them or a literal.
    fn joined_at_once(&self, each: bool, one: usize, other: usize) -> Option<usize>
        ensures { IfSome result (IsJoinOf (nodes_of self.now) each one other) }
    {
        let neutral = literal(each);
        let opposite = literal(!each);
        if one == other {
            Some(one)
        } else if other == neutral {
            Some(one)
        } else if one == neutral {
            Some(other)
        } else if one < 2 {
            Some(opposite)
        } else if other < 2 {
            Some(opposite)
        } else {
            None
        }
    }

    /// Returns the place of two joined places, if it is known.
    fn known_join(&self, at: usize, each: bool, one: usize, other: usize) -> Option<usize>
        requires { All (IsJoin (nodes_of self.now)) self.now.joined.items }
        ensures { IfSome result (IsJoinOf (nodes_of self.now) each one other) }
    {
        match self.joined_at_once(each, one, other) {
            Some(place) => Some(place),
            None => self.recalled(at, each, one, other),
        }
    }

    /// Joins two places. Returns the place of what is true where both of them are, if `each`, and otherwise where at
    /// least one of them is.
    pub fn join(&mut self, each: bool, one: usize, other: usize) -> Result<usize, DiagramError>
        requires table { IsTable (nodes_of self.old) self.old.joined.items }
        requires one { one < places (nodes_of self.old) }
        requires other { other < places (nodes_of self.old) }
        ensures made { IfOk result (IsMade self.old self.new) }
        ensures means { IfOk result (λ place. (holds : ℕ → Bool) → value holds (nodes_of self.new) place
            ≡ joint each (value holds (nodes_of self.old) one) (value holds (nodes_of self.old) other)) }
    {
        let at = hint(usize::from(each), one, other, self.joined.len());
        if let Some(place) = self.known_join(at, each, one, other) {
            return Ok(place);
        }
        let halves = self.halves(one, other)?;
        let without = self.join(each, halves.one_without, halves.other_without)?;
        let with = self.join(each, halves.one_with, halves.other_with)?;
        let place = self.node(halves.number, without, with)?;
        self.remember(
            at,
            JoinEntry {
                each,
                one,
                other,
                place,
            },
        );
        Ok(place)
    }

    /// Returns the place of what is true where the pair with this number is a fact, or where it is not.
    pub fn pair(&mut self, number: usize, wanted: bool) -> Result<usize, DiagramError>
        requires { IsTable (nodes_of self.old) self.old.joined.items }
        ensures made { IfOk result (IsMade self.old self.new) }
        ensures means { IfOk result (λ place. (holds : ℕ → Bool) → value holds (nodes_of self.new) place
            ≡ (if wanted then holds number else not (holds number))) }
    {
        let without = literal(!wanted);
        let with = literal(wanted);
        self.node(number, without, with)
    }

    /// Returns choices over which a place is true. Only what is false over each set of facts has none.
    pub fn satisfying_choices(&self, alloc: Global, place: usize) -> Result<Vec<Choice>, AllocError>
        requires table { AreEarlier (nodes_of self.now) }
        requires place { place < places (nodes_of self.now) }
        requires not_false { place ≡ 0 → ⊥ }
        ensures { IfOk result (λ choices. (holds : ℕ → Bool) → Agrees holds choices.items
            → value holds (nodes_of self.now) place ≡ true) }
    {
        let mut choices = Vec::new(alloc);
        let mut at = place;
        'nodes: while let Some(node) = self.at(at) {
            let holds = node.without == FALSE;
            let number = node.number;
            choices.push(Choice { number, holds })?;
            let next = chosen(node, holds);
            at = next;
        }
        Ok(choices)
    }
}
