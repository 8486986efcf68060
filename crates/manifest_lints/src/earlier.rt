//! The relation of a key to those before it: the same condition, or an equivalent one.

ghost use Rattle.std.specs.Prelude.{◌≡◌, ◌<◌, ◌*◌, None, [], IfOk, OnOk, IsTrue};
ghost use Rattle.std.specs.Borrow.{Bor};
ghost use Rattle.cargo_platform.specs.declared.Platform.{Platform as Shown};
ghost use Rattle.cargo_platform.specs.Trees.{Expression, tree_of, condition_of};
ghost use Rattle.manifest_lints.specs.Earlier.{is_same, is_equivalent, is_undecided, noted, Notes};
ghost use Rattle.manifest_lints.specs.Earlier.{same_place, AddsMember};
ghost use Rattle.manifest_lints.specs.Earlier.{TellsNoSame, TellsEquivalent, TellsUndecided, TellsUnlike};
ghost use Rattle.manifest_lints.specs.Earlier.{is_unlike, part_of, PutsUnlike};
ghost use Rattle.manifest_lints.specs.Rustcs.{AllowsRustcs};
ghost use Rattle.manifest_lints.specs.Classes.{AreClassed, AreUnlike, IsClassOf, PutsIn, PutsMember};
ghost use Rattle.manifest_lints.specs.Classes.{TellsNoneEquivalent};

use crate::sample_sets::{equivalence_fingerprint, truths};
use cargo_platform::{CfgExpr, Platform};
use exact_answers::{FactConstraints, Validity, equivalent_platform};
use known_targets::{SET_WORDS, matching};
use std::alloc::{AllocError, Global};
use std::collections::BTreeMap;

/// The maximum number of keys of its class that a key is compared with.
pub const MAX_COMPARED_KEYS: usize = 64;

/// How much work the comparison of a key with earlier keys may be. The work is a product: the number of keys before it,
/// times the bytes of those keys and of the key itself. A key of more work is not compared with others. So all
/// comparisons together read a bounded number of bytes. Real manifests stay far below this.
pub const MAX_COMPARISON_WORK: usize = 1_048_576;

/// Returns whether a key is not compared with the `count` keys before it, because there are too many of them for so
/// many bytes.
pub fn is_too_much(count: usize, bytes: usize) -> bool
    ensures { IsTrue result → MAX_COMPARISON_WORK < count * bytes }
{
    count.saturating_mul(bytes) > MAX_COMPARISON_WORK
}

/// The relation of a key to the earlier ones.
#[derive(Clone, Copy, Debug, PartialEq, Eq, Drop)]
pub enum Earlier {
    /// No earlier key is the same or equivalent.
    Unlike,
    /// The key at this index is the same.
    Same(usize),
    /// The key at this index is equivalent.
    Equivalent(usize),
    /// It is not known whether an earlier key is equivalent.
    Undecided,
}

impl Earlier {
    /// Returns whether no earlier key is the same or equivalent.
    fn is_unlike(self) -> bool
        ensures { result ≡ is_unlike self }
    {
        matches!(self, Earlier::Unlike)
    }

    /// Returns whether an earlier key is the same.
    pub fn is_same(self) -> bool
        ensures { result ≡ is_same self }
    {
        matches!(self, Earlier::Same(_))
    }

    /// Returns whether an earlier key is equivalent.
    pub fn is_equivalent(self) -> bool
        ensures { result ≡ is_equivalent self }
    {
        matches!(self, Earlier::Equivalent(_))
    }

    /// Returns whether the relation is not known.
    pub fn is_undecided(self) -> bool
        ensures { result ≡ is_undecided self }
    {
        matches!(self, Earlier::Undecided)
    }
}

/// The values that equivalent conditions share, and the part of the conditions with these values that the class
/// contains.
#[derive(Clone, Copy, Debug, PartialEq, Eq, PartialOrd, Ord, Drop)]
struct Class {
    // The known targets on which they are true.
    targets: [u64; SET_WORDS],
    // Their truth values over the sampled sets of facts.
    truths: u64,
    part: Part,
}

/// A part of the conditions that share their truth values.
#[derive(Clone, Copy, Debug, PartialEq, Eq, PartialOrd, Ord, Drop)]
enum Part {
    /// All of them.
    All,
    /// Those that share this number too.
    Numbered(u64),
    /// Those whose number is not known.
    NotNumbered,
}

/// The keys so far, in their order, with the classes of their conditions.
#[derive(Drop)]
pub struct Keys<'a> {
    seen: BTreeMap<&'a Platform, usize>,
    // The indexes of the keys whose conditions are compared with later ones, and these conditions.
    members: Vec<(usize, &'a Platform)>,
    // For each class, the indexes of its members.
    classes: BTreeMap<Class, Vec<usize>>,
}

impl<'a> Keys<'a> {
    /// Returns an empty list of keys.
    pub fn new(alloc: Global) -> Keys<'a>
        ensures none { (q : Bor Shown) → noted result q ≡ None }
        ensures no_members { result.members.items ≡ [] }
        ensures classed { AreClassed result }
    {
        Keys {
            seen: BTreeMap::new(alloc),
            members: Vec::new(alloc),
            classes: BTreeMap::new(alloc),
        }
    }

    /// Adds the key at `index`, which comes after those that were added, and returns its relation to them. Without a
    /// budget, it is not decided whether a key is equivalent. Fails if memory is refused.
    pub fn add(
        &mut self,
        alloc: Global,
        index: usize,
        platform: &'a Platform,
        known: &'a FactConstraints<'a>,
        budget: Option<u64>,
    ) -> Result<Earlier, AllocError>
        ensures same { IfOk result (λ r. same_place r ≡ noted self.old platform.entry) }
        ensures equivalent { IfOk result (TellsEquivalent known.now self.old (condition_of platform.entry.now)) }
        ensures undecided { IfOk result (TellsUndecided known.now budget self.old (condition_of platform.entry.now)) }
        ensures unlike { AllowsRustcs known.now → AreClassed self.old
            → IfOk result (TellsNoneEquivalent known.now self.old (condition_of platform.entry.now)) }
        ensures classed { AreClassed self.old → OnOk result (AreClassed self.new) }
        ensures notes { OnOk result (Notes self.old self.new index platform.entry) }
        ensures members { OnOk result (AddsMember self.old self.new index platform.entry) }
        ensures puts { IfOk result (PutsUnlike self.old self.new index platform.entry) }
    {
        match self.note(index, platform)? {
            Some(first) => Ok(Earlier::Same(first)),
            None => self.compare(alloc, index, platform, known, budget),
        }
    }

    /// Records a condition, and returns the index of the same condition if there is one.
    fn note(&mut self, index: usize, platform: &'a Platform) -> Result<Option<usize>, AllocError>
        ensures first { IfOk result (λ first. first ≡ noted self.old platform.entry) }
        ensures notes { OnOk result (Notes self.old self.new index platform.entry) }
        ensures members { OnOk result (self.new.members.items ≡ self.old.members.items) }
        ensures classes { OnOk result (self.new.classes ≡ self.old.classes) }
    {
        if let Some(first) = self.seen.get(&platform) {
            return Ok(Some(*first));
        }
        let _none = self.seen.insert(platform, index)?;
        Ok(None)
    }

    /// Compares a condition with those of its class, and adds it to them unless it is equivalent to one, or that is not
    /// known.
    fn compare(
        &mut self,
        alloc: Global,
        index: usize,
        platform: &'a Platform,
        known: &'a FactConstraints<'a>,
        budget: Option<u64>,
    ) -> Result<Earlier, AllocError>
        ensures other { IfOk result TellsNoSame }
        ensures equivalent { IfOk result (TellsEquivalent known.now self.old (condition_of platform.entry.now)) }
        ensures undecided { IfOk result (TellsUndecided known.now budget self.old (condition_of platform.entry.now)) }
        ensures unlike { AllowsRustcs known.now → AreClassed self.old
            → IfOk result (TellsNoneEquivalent known.now self.old (condition_of platform.entry.now)) }
        ensures classed { AreClassed self.old → OnOk result (AreClassed self.new) }
        ensures noted { OnOk result ((q : Bor Shown) → noted self.new q ≡ noted self.old q) }
        ensures members { OnOk result (AddsMember self.old self.new index platform.entry) }
        ensures puts { IfOk result (PutsUnlike self.old self.new index platform.entry) }
    {
        let Platform::Cfg(e) = platform else {
            return Ok(Earlier::Unlike);
        };
        let class = class_of(alloc, platform, e)?;
        let number = equivalence_fingerprint(alloc, platform, e)?;
        let found = self.as_true_among(alloc, class, number, platform, known, budget)?;
        if !found.is_unlike() {
            return Ok(found);
        }
        self.put_member(alloc, index, platform, class, number)?;
        Ok(Earlier::Unlike)
    }

    /// Adds a condition to the members of its class, and to those of its part of the class.
    fn put_member(
        &mut self,
        alloc: Global,
        index: usize,
        platform: &'a Platform,
        class: Class,
        number: Option<u64>,
    ) -> Result<(), AllocError>
        ensures puts { OnOk result (PutsMember self.old self.new (index, platform.entry) class number) }
        ensures noted { OnOk result ((q : Bor Shown) → noted self.new q ≡ noted self.old q) }
    {
        let place = self.members.len();
        self.members.push((index, platform))?;
        put(alloc, &mut self.classes, class, place)?;
        put(alloc, &mut self.classes, part_of(class, number), place)
    }

    /// Finds a member of a class that is equivalent to a condition: in the part of the class with its number, or in the
    /// whole class if it has none.
    fn as_true_among(
        &self,
        alloc: Global,
        class: Class,
        number: Option<u64>,
        platform: &'a Platform,
        known: &'a FactConstraints<'a>,
        budget: Option<u64>,
    ) -> Result<Earlier, AllocError>
        ensures other { IfOk result TellsNoSame }
        ensures equivalent { IfOk result (TellsEquivalent known.now self.now (condition_of platform.entry.now)) }
        ensures undecided { IfOk result (TellsUndecided known.now budget self.now (condition_of platform.entry.now)) }
        ensures unlike { IfOk result (λ r. IsTrue (is_unlike r)
            → AreUnlike known.now self.now (condition_of platform.entry.now) class number) }
    {
        match number {
            Some(_) => self.as_true_in_part(alloc, class, number, platform, known, budget),
            None => self.as_true(alloc, &class, platform, known, budget),
        }
    }

    /// Finds a member of a class that is equivalent to a condition with a number: among those that share the number, or
    /// have none.
    fn as_true_in_part(
        &self,
        alloc: Global,
        class: Class,
        number: Option<u64>,
        platform: &'a Platform,
        known: &'a FactConstraints<'a>,
        budget: Option<u64>,
    ) -> Result<Earlier, AllocError>
        ensures other { IfOk result TellsNoSame }
        ensures equivalent { IfOk result (TellsEquivalent known.now self.now (condition_of platform.entry.now)) }
        ensures undecided { IfOk result (TellsUndecided known.now budget self.now (condition_of platform.entry.now)) }
        ensures numbered { IfOk result
            (TellsUnlike known.now self.now (condition_of platform.entry.now) (part_of class number)) }
        ensures not_numbered { IfOk result
            (TellsUnlike known.now self.now (condition_of platform.entry.now) (part_of class None)) }
    {
        let part = part_of(class, number);
        let found = self.as_true(alloc, &part, platform, known, budget)?;
        if !found.is_unlike() {
            return Ok(found);
        }
        let part = part_of(class, None);
        self.as_true(alloc, &part, platform, known, budget)
    }

    /// Finds a member of a class that is equivalent to a condition.
    fn as_true(
        &self,
        alloc: Global,
        class: &Class,
        platform: &'a Platform,
        known: &'a FactConstraints<'a>,
        budget: Option<u64>,
    ) -> Result<Earlier, AllocError>
        ensures other { IfOk result TellsNoSame }
        ensures equivalent { IfOk result (TellsEquivalent known.now self.now (condition_of platform.entry.now)) }
        ensures undecided { IfOk result (TellsUndecided known.now budget self.now (condition_of platform.entry.now)) }
        ensures unlike { IfOk result
            (TellsUnlike known.now self.now (condition_of platform.entry.now) class.now) }
    {
        let Some(places) = self.classes.get(class) else {
            return Ok(Earlier::Unlike);
        };
        let Some(splits) = budget else {
            return Ok(Earlier::Undecided);
        };
        let mut compared: usize = 0;
        'places: for place in places {
            if compared == MAX_COMPARED_KEYS && self.members.len() > MAX_COMPARED_KEYS {
                return Ok(Earlier::Undecided);
            }
            compared = compared.saturating_add(1);
            let Some((first, other)) = self.members.get(*place) else {
                continue;
            };
            match equivalent_platform(alloc, *other, platform, known, splits)? {
                Validity::Yes => return Ok(Earlier::Equivalent(*first)),
                Validity::No(_) => {}
                Validity::Undecided => return Ok(Earlier::Undecided),
            }
        }
        Ok(Earlier::Unlike)
    }
}

/// Returns the part of a class whose conditions share a number, or have none.
fn part_of(class: Class, number: Option<u64>) -> Class
    ensures { result ≡ part_of class number }
{
    let part = match number {
        Some(number) => Part::Numbered(number),
        None => Part::NotNumbered,
    };
    Class { part, ..class }
}

/// Adds an index to those of a class.
fn put(
    alloc: Global,
    classes: &mut BTreeMap<Class, Vec<usize>>,
    class: Class,
    place: usize,
) -> Result<(), AllocError>
    ensures { OnOk result (PutsIn classes.old classes.new class place) }
{
    if let Some(others) = classes.get_mut(&class) {
        others.push(place)?;
        return Ok(());
    }
    let mut places = Vec::new(alloc);
    places.push(place)?;
    let _none = classes.insert(class, places)?;
    Ok(())
}

/// Returns the class of an expression.
fn class_of(alloc: Global, platform: &Platform, e: &CfgExpr) -> Result<Class, AllocError>
    ensures { condition_of platform.now ≡ Expression (tree_of e.now) → IfOk result (IsClassOf (tree_of e.now)) }
{
    let targets = matching(alloc, platform)?.words();
    let truths = truths(alloc, e)?;
    Ok(Class {
        targets,
        truths,
        part: Part::All,
    })
}
