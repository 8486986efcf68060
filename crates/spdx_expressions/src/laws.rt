//! Laws: statements about the definitions. The functions have empty bodies, and each contract is a law.

ghost use Rattle.spdx_expressions.specs.Laws.{SpellsOneTree, PartsSpellOneTree, PrintSpells, MoreSatisfies};
ghost use Rattle.spdx_expressions.specs.Laws.{OrderIsIdle};

/// A text means at most one tree, and so do parts.
pub fn one_tree()
    ensures text { SpellsOneTree }
    ensures parts { PartsSpellOneTree }
{}

/// If parts mean a tree and their licences are those of the grammar, then their printed text means that tree.
pub fn print_spells()
    ensures { PrintSpells }
{}

/// If more licences are allowed, every expression that was satisfied is still satisfied.
pub fn more_satisfies()
    ensures { MoreSatisfies }
{}

/// The order of a list of allowed licences plays no part, nor do repetitions in it.
pub fn order_is_idle()
    ensures { OrderIsIdle }
{}
