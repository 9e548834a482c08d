//! Rows of two columns, of which one may lack a cell, as `zip_longest` and `merge_join_by` yield them.
ghost use Rattle.std.specs.Prelude.{◌≡◌, ◌+◌, ℕ, List, Result, Ok, is_some, not, if◌then◌else◌, unwrap_or};
ghost use Rattle.std.specs.Ordering.{nat_cmp};
ghost use Rattle.fallible_iterator.specs.Lists.{CollectedAs, Lists, filter_mapped, results};
ghost use Rattle.fallible_itertools.specs.Merge.{merge_joined};
ghost use Rattle.fallible_itertools.specs.Zip.{both_of, left_of, only_left, only_right, right_of};
ghost use Rattle.fallible_itertools.specs.JoinTypes.zip.EitherOrBoth.{EitherOrBoth};
ghost use Rattle.example_itertools.specs.declared.rows.Change.TheVariants.{Added, Kept, Removed};

use fallible_iterator::{FallibleIterator, Fault, convert};
use fallible_itertools::{EitherOrBoth, FallibleItertools};
use std::alloc::Global;

/// What became of a row.
#[derive(Clone, Copy, Debug, Drop, PartialEq, Eq)]
pub enum Change {
    /// The old column alone has it.
    Removed,
    /// Both have it.
    Kept,
    /// The new column alone has it.
    Added,
}

/// What became of a row between an old and a new column.
pub fn change_of(row: &EitherOrBoth<u32, u32>) -> Change
    ensures { result ≡ (if is_some (only_left row.now) then Removed else
        (if is_some (only_right row.now) then Added else Kept)) }
{
    if row.is_left() {
        Change::Removed
    } else if row.is_right() {
        Change::Added
    } else {
        Change::Kept
    }
}

/// Whether one of the columns alone has a row.
pub fn is_changed(row: &EitherOrBoth<u32, u32>) -> bool
    ensures { result ≡ not (is_some (both_of row.now)) }
{
    !row.is_both()
}

/// How many cells a row has.
pub fn cells_of(row: &EitherOrBoth<u32, u32>) -> u32
    ensures { result ≡ (if is_some (left_of row.now) then 1 else 0)
        + (if is_some (right_of row.now) then 1 else 0) }
{
    u32::from(row.has_left()) + u32::from(row.has_right())
}

/// The old cell of a row, or 0 if there is none.
pub fn old_cell(row: EitherOrBoth<u32, u32>) -> u32
    ensures { result ≡ unwrap_or (left_of row) 0 }
{
    row.left().unwrap_or(0)
}

/// The new cell of a row, or 0 if there is none.
pub fn new_cell(row: EitherOrBoth<u32, u32>) -> u32
    ensures { result ≡ unwrap_or (right_of row) 0 }
{
    row.right().unwrap_or(0)
}

/// The new and the old cell of a row, a 0 for one that isn't there.
pub fn turned_back(row: EitherOrBoth<u32, u32>) -> (u32, u32)
    ensures { result ≡ (unwrap_or (right_of row) 0, unwrap_or (left_of row) 0) }
{
    row.flip().or(0, 0)
}

/// The keys that the old one of two sorted columns has alone, or the first failure, unless an allocation fails.
pub fn removed(
    alloc: Global,
    old: Vec<Result<u32, u8>>,
    new: Vec<Result<u32, u8>>,
) -> Result<Vec<u32>, Fault<u8>>
    ensures { CollectedAs (λ xs v. v.items ≡ xs) (filter_mapped (λ row. Ok (only_left row))
        (merge_joined (λ x y. Ok (nat_cmp x y)) (results old.items) (results new.items))) result }
{
    convert(old.into_iter())
        .merge_join_by(convert(new.into_iter()), |x, y| Ok(x.cmp(y)))
        .filter_map(|row: EitherOrBoth<u32, u32>| Ok(row.just_left()))
        .collect(alloc)
}

/// The cells that rows have in the right column alone, or the first failure, unless an allocation fails.
pub fn added<I: FallibleIterator<Item = EitherOrBoth<u32, u32>>>(
    alloc: Global,
    rows: I,
) -> Result<Vec<u32>, Fault<I::Error>>
where
    requires can_next { I.contract.can_next rows }
    requires finite { I.contract.is_finite rows }
    ensures { (l : List (Result (EitherOrBoth ℕ ℕ) I.Error)) → Lists I.contract.steps rows l
        → CollectedAs (λ xs v. v.items ≡ xs) (filter_mapped (λ row. Ok (only_right row)) l) result }
{
    rows.filter_map(|row: EitherOrBoth<u32, u32>| Ok(row.just_right()))
        .collect(alloc)
}

/// The rows that have both cells, or the first failure, unless an allocation fails.
pub fn kept<I: FallibleIterator<Item = EitherOrBoth<u32, u32>>>(
    alloc: Global,
    rows: I,
) -> Result<Vec<(u32, u32)>, Fault<I::Error>>
where
    requires can_next { I.contract.can_next rows }
    requires finite { I.contract.is_finite rows }
    ensures { (l : List (Result (EitherOrBoth ℕ ℕ) I.Error)) → Lists I.contract.steps rows l
        → CollectedAs (λ xs v. v.items ≡ xs) (filter_mapped (λ row. Ok (both_of row)) l) result }
{
    rows.filter_map(|row: EitherOrBoth<u32, u32>| Ok(row.both()))
        .collect(alloc)
}
