//! Laws about the definitions. The functions do nothing: the contract of each is a law.

ghost use Rattle.std.specs.Prelude.{◌≡◌, ◌⊎◌, ◌↔◌, ◌++◌, ℕ, Bool, List, IsTrue, Contains, Option, Some, None};
ghost use Rattle.package_graphs.specs.Graphs.{Edges, IsPartOf, IsPresent, LeadsAt};
ghost use Rattle.package_graphs.specs.Packages.{Packages, KindSet, HostTarget, Sided, BuiltFor, IsThere, IsThereOn};
ghost use Rattle.package_graphs.specs.Packages.{IsForTarget, IsForHost, IsPlain, LeadsOn, is_macro, is_build, shipped};

/// The target sets of the nodes are the least sets that contain all targets for the roots and are closed under the
/// edges: they are such sets, and they are subsets of any other such sets.
pub fn presence_is_least()
    ensures roots { (graph : Edges) (roots : List ℕ) (k n : ℕ) → Contains roots n → IsPresent graph roots k n }
    ensures edges { (graph : Edges) (roots : List ℕ) (k m n : ℕ)
        → IsPresent graph roots k m → LeadsAt graph k m n → IsPresent graph roots k n }
    ensures least { (graph : Edges) (roots : List ℕ) (at : ℕ → ℕ → Bool)
        → ((n k : ℕ) → Contains roots n → IsTrue (at n k))
        → ((m n k : ℕ) → IsTrue (at m k) → LeadsAt graph k m n → IsTrue (at n k))
        → (n k : ℕ) → IsPresent graph roots k n → IsTrue (at n k) }
{}

/// Additional edges remove no target from a node.
pub fn more_edges_keep_targets()
    ensures { (graph more : Edges) (roots : List ℕ) (k n : ℕ) → IsPartOf graph more
        → IsPresent graph roots k n → IsPresent more roots k n }
{}

/// The order of the edges does not matter, nor how often an edge occurs.
pub fn order_does_not_count()
    ensures { (graph other : Edges) (roots : List ℕ) (k n : ℕ) → IsPartOf graph other → IsPartOf other graph
        → IsPresent graph roots k n ↔ IsPresent other roots k n }
{}

/// Additional roots remove no target from a node.
pub fn more_roots_keep_targets()
    ensures { (graph : Edges) (roots more : List ℕ) (k n : ℕ) → ((root : ℕ) → Contains roots root → Contains more root)
        → IsPresent graph roots k n → IsPresent graph more k n }
{}

/// A node has a target from two lists of roots exactly if it has that target from one of them.
pub fn roots_add_up()
    ensures { (graph : Edges) (roots others : List ℕ) (k n : ℕ)
        → IsPresent graph (roots ++ others) k n ↔ (IsPresent graph roots k n ⊎ IsPresent graph others k n) }
{}

/// Without a host, a package is in the build, on one side or the other, exactly if it is by the conditions on the
/// target alone.
pub fn without_a_host_the_target_decides()
    ensures { (packages : Packages) (kinds : KindSet) (k p : ℕ)
        → ((side : BuiltFor) × IsThereOn packages kinds None k (p, side)) ↔ IsThere packages kinds k p }
{}

/// A procedural macro is in the build for the host only.
pub fn macros_are_for_the_host()
    ensures { (packages : Packages) (kinds : KindSet) (host : Option HostTarget) (k : ℕ) (n : Sided)
        → IsTrue (is_macro packages n.0) → IsThereOn packages kinds host k n → IsForHost n }
{}

/// A build-dependency, and each dependency of a package that is built for the host, leads to a package that is built
/// for the host.
pub fn what_the_host_needs_is_for_the_host()
    ensures build { (packages : Packages) (kinds : KindSet) (host : Option HostTarget) (k : ℕ) (m n : Sided)
        → (leads : LeadsOn packages kinds host k m n) → IsTrue (is_build leads.depends.dependency.kind) → IsForHost n }
    ensures host { (packages : Packages) (kinds : KindSet) (host : Option HostTarget) (k : ℕ) (m n : Sided)
        → LeadsOn packages kinds host k m n → IsForHost m → IsForHost n }
{}

/// Whether a package is in the build for the target depends neither on the host nor on build-dependencies.
pub fn the_host_adds_nothing_for_the_target()
    ensures { (packages : Packages) (kinds : KindSet) (host other : Option HostTarget) (k : ℕ) (n : Sided)
        → IsForTarget n
        → IsThereOn packages kinds host k n ↔ IsThereOn packages (shipped kinds) other k n }
{}

/// If each dependency is a normal one and no package is a procedural macro, the host does not matter.
pub fn plain_packages_need_no_host()
    ensures { (packages : Packages) (kinds : KindSet) (host : HostTarget) (k : ℕ) (n : Sided) → IsPlain packages
        → IsThereOn packages kinds (Some host) k n ↔ (IsThere packages kinds k n.0 × IsForTarget n) }
{}
