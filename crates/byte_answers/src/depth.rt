//! The nesting depth of a text.

ghost use Rattle.std.specs.Prelude.{◌≡◌, true, false};
ghost use Rattle.byte_answers.specs.Depths.{IsTooDeep};

use cargo_platform::nesting_beyond;

/// The maximum number of parentheses of a text that can be open at once. Matching, printing and comparing use some 100
/// bytes of stack for each open group that others follow.
pub const MAX_OPEN: usize = 10_000;

/// Returns whether more than `MAX_OPEN` parentheses are open at once. Parentheses within quotes do not count.
pub fn is_too_deep(text: &str) -> bool
    // The result is true exactly if more than `MAX_OPEN` parentheses are open at once.
    ensures deep { result ≡ true → IsTooDeep text.now }
    ensures shallow { result ≡ false → IsTooDeep text.now → ⊥ }
{
    match nesting_beyond(text, MAX_OPEN) {
        Some(_place) => true,
        None => false,
    }
}

/// The maximum number of bytes of a flat condition, which can contain one group for each 17 of them.
pub const MAX_FLAT_BYTES: usize = 680_000;
