//! Laws of the definitions, each proved as the contract of a function that does nothing.

ghost use Rattle.cyclonedx.specs.Laws.{DecodesToItself, HasNoSeparator};

/// A name or a version with its escapes decodes to itself.
pub fn decodes_to_itself()
    ensures { DecodesToItself }
{}

/// It has no character that ends a part of a package URL.
pub fn no_separators()
    ensures { HasNoSeparator }
{}
