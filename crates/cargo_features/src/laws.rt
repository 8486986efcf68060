//! Laws about the definitions. The functions do nothing: the contract of each is a law.

ghost use Rattle.std.specs.Prelude.{ℕ, Some};
ghost use Rattle.package_graphs.specs.Packages.{BuiltFor, IsThereOn, KindSet, HostTarget};
ghost use Rattle.cargo_features.specs.Graphs.{Declared, Graph, Built, IsGraphOf, resolver_1, resolver_2, joined};
ghost use Rattle.cargo_features.specs.Requests.{AskMore};
ghost use Rattle.cargo_features.specs.Holding.{Holds};
ghost use Rattle.cargo_features.specs.declared.claims.Claim.{Claim};
ghost use Rattle.cargo_features.specs.declared.claims.Claim.TheVariants as claim;

/// A package that a build uses is also in the build by the graph of the packages alone: features only leave packages
/// out.
pub fn what_is_used_is_there()
    ensures { (build : Built) (packages : Declared) (graph : Graph) (k p : ℕ) (side : BuiltFor)
        → IsGraphOf packages graph → Holds build packages k (claim.Used p side)
        → IsThereOn graph build.kinds (Some build.host) k (p, side) }
{}

/// Resolver 1 turns on or uses everything that resolver 2 does, if sides are not kept apart.
pub fn resolver_1_has_what_resolver_2_has()
    ensures { (kinds : KindSet) (host : HostTarget) (packages : Declared) (k : ℕ) (c : Claim)
        → Holds (resolver_2 kinds host) packages k c → Holds (resolver_1 kinds host) packages k (joined c) }
{}

/// Requesting more features of the same packages leaves nothing out: what was on or used stays on or used.
pub fn more_features_take_nothing_away()
    ensures { (build : Built) (packages others : Declared) (k : ℕ) (c : Claim)
        → AskMore packages others → Holds build packages k c → Holds build others k c }
{}
