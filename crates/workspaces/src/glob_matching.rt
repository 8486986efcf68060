//! Patterns of pieces, each of which matches one item or any number of them.

ghost use Rattle.std.specs.Prelude.{◌≡◌, ◌+◌, ◌↔◌, ◌∷◌, [], ℕ, Bool, List, IfOk, IsTrue, OnOk, length, vec_len};
ghost use Rattle.workspaces.specs.Stretches.{IsMatched};
ghost use Rattle.workspaces.specs.Rows.{IsRow};

use std::alloc::{AllocError, Global};

/// A piece of a pattern over items.
pub trait Piece<T> {
    // It matches any number of items, none too.
    ghost is_many: { Self → Bool };

    // It matches this item, where it matches one.
    ghost matches: { Self → T → Type 0 };

    /// Returns whether the piece matches any number of items, also none.
    fn is_many(&self) -> bool
        ensures { result ≡ is_many self.now };

    /// Returns whether the piece matches this item, if it matches one item.
    fn matches(&self, alloc: Global, item: &T) -> Result<bool, AllocError>
        ensures { IfOk result (λ b. IsTrue b ↔ matches self.now item.now) };
}

/// Returns whether a piece and those after it match no items, if `fewer` says whether those after it do.
fn matches_none_with<T, P: Piece<T>>(piece: &P, fewer: bool) -> bool
    ensures { IsTrue result ↔ IsTrue (P.is_many piece.now) × IsTrue fewer }
{
    piece.is_many() && fewer
}

/// Returns for each number of last pieces whether these match no items.
fn first_row<T, P: Piece<T>>(alloc: Global, pieces: &[P]) -> Result<Vec<bool>, AllocError>
    ensures { IfOk result (λ row. IsRow P.is_many P.matches pieces.now [] row.items) }
{
    let mut row = Vec::new(alloc);
    row.push(true)?;
    let mut before = true;
    for k in 0..pieces.len() {
        let piece = &pieces[pieces.len() - 1 - k];
        before = matches_none_with::<T, P>(piece, before);
        row.push(before)?;
    }
    Ok(row)
}

/// Returns whether a piece and those after it match an item and those after it. `fewer_pieces` says whether the pieces
/// after it match these items, `fewer_items` whether all pieces match the items after it, and `fewer` whether the
/// pieces after it match the items after it.
fn matches_with<T, P: Piece<T>>(
    alloc: Global,
    piece: &P,
    item: &T,
    fewer_pieces: bool,
    fewer_items: bool,
    fewer: bool,
) -> Result<bool, AllocError>
    ensures { IfOk result (λ b. (ps : List P) (xs : List T)
        → IsTrue fewer_pieces ↔ IsMatched P.is_many P.matches ps (item.now ∷ xs)
        → IsTrue fewer_items ↔ IsMatched P.is_many P.matches (piece.now ∷ ps) xs
        → IsTrue fewer ↔ IsMatched P.is_many P.matches ps xs
        → IsTrue b ↔ IsMatched P.is_many P.matches (piece.now ∷ ps) (item.now ∷ xs)) }
{
    if piece.is_many() {
        return Ok(fewer_pieces || fewer_items);
    }
    let matches = piece.matches(alloc, item)?;
    Ok(matches && fewer)
}

/// Puts an item before the others.
fn add_item<T, P: Piece<T>>(
    alloc: Global,
    pieces: &[P],
    item: &T,
    row: &mut Vec<bool>,
) -> Result<(), AllocError>
    requires { vec_len row.old ≡ length pieces.now + 1 }
    ensures long { OnOk result (vec_len row.new ≡ length pieces.now + 1) }
    ensures row { OnOk result ((xs : List T) → IsRow P.is_many P.matches pieces.now xs row.old.items
        → IsRow P.is_many P.matches pieces.now (item.now ∷ xs) row.new.items) }
{
    let mut before = row[0];
    row[0] = false;
    for k in 0..pieces.len() {
        let piece = &pieces[pieces.len() - 1 - k];
        let was = row[k + 1];
        row[k + 1] = matches_with(alloc, piece, item, row[k], was, before)?;
        before = was;
    }
    Ok(())
}

/// Returns whether the pieces of a pattern, in their order, match all the items: the items can be divided into as many
/// stretches, each of which its piece matches. Fails only if an allocation fails.
pub fn matches_pieces<T, P: Piece<T>>(
    alloc: Global,
    pieces: &[P],
    items: &[T],
) -> Result<bool, AllocError>
    ensures { IfOk result (λ b. IsTrue b ↔ IsMatched P.is_many P.matches pieces.now items.now) }
{
    let mut row = first_row(alloc, pieces)?;
    for k in 0..items.len() {
        add_item(alloc, pieces, &items[items.len() - 1 - k], &mut row)?;
    }
    Ok(row[pieces.len()])
}
