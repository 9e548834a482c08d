//! Items put one after another into a `Vec`, where an allocation may fail.
ghost use Rattle.std.specs.Prelude.{min, ◌≡◌, ◌≤◌, [], ◌∷◌, ◌++◌, IfOk, MatchResult, vec_len, vec_capacity};

use std::alloc::{AllocError, Global};

/// The item alone, with room for at least so many items, or for 1024 if that is less.
///
/// Memory: if the allocation fails, so does this, and the item is lost.
pub fn alone<X: Drop>(alloc: Global, room: usize, item: X) -> Result<Vec<X>, AllocError>
    ensures { IfOk result (λ v. (v.items ≡ item ∷ []) × (min room 1024 ≤ vec_capacity v)) }
{
    let mut items = Vec::with_capacity(alloc, room.min(1024))?;
    pushed(&mut items, item)?;
    Ok(items)
}

/// Appends the item.
///
/// Memory: if an allocation fails, so does this; the item is lost then, and no other.
#[inline(always)]
pub fn pushed<X: Drop>(items: &mut Vec<X>, item: X) -> Result<(), AllocError>
    ensures { MatchResult result
        (λ _. (items.new.items ≡ items.old.items ++ item ∷ [])
        × (vec_capacity items.old ≤ vec_capacity items.new))
        (λ _. (vec_capacity items.old ≤ vec_len items.old)
        × (items.new.items ≡ items.old.items)) }
{
    match items.push(item) {
        Ok(()) => Ok(()),
        Err(refused) => Err(AllocError::from(refused)),
    }
}
