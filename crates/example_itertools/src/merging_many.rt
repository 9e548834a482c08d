//! Callers of `kmerge_by` and `kmerge`, which state what many sorted sources come to.
ghost use Rattle.std.specs.Prelude.{◌≡◌, ◌∷◌, [], Err, List, MatchResult, Ok, Result, nat_eq, nat_le, nat_lt, ℕ, ⊤};
ghost use Rattle.std.specs.Ordering.{nat_cmp};
ghost use Rattle.fallible_iterator.specs.Comparing.{by_cmp};
ghost use Rattle.fallible_iterator.specs.Lists.{Lists, failures_mapped, filtered, last_of, results};
ghost use Rattle.fallible_itertools.specs.Coalesce.{deduped};
ghost use Rattle.fallible_itertools.specs.KMerge.{Each, EachLists, kmerged, kmerged_in_order};
ghost use Rattle.example_itertools.specs.declared.merging_many.NoLast.{NoLast};

use fallible_iterator::{FallibleIterator, convert};
use fallible_itertools::{FallibleItertools, kmerge, kmerge_by};
use std::alloc::{AllocError, Global};

/// Why there is no last line.
#[derive(Clone, Copy, Debug, Drop, PartialEq)]
pub enum NoLast {
    /// A log is bad, with this code.
    Log(u8),
    /// There was no memory.
    Memory,
}

impl From<u8> for NoLast {
    ghost from_gives = { λ code why. why ≡ NoLast.Log code };

    /// `NoLast::Log`
    fn from(code: u8) -> NoLast {
        NoLast::Log(code)
    }
}

impl From<AllocError> for NoLast {
    ghost from_gives = { λ _ why. why ≡ NoLast.Memory };

    /// `NoLast::Memory`
    fn from(_: AllocError) -> NoLast {
        NoLast::Memory
    }
}

/// The last line of three sorted logs together, or the first failure; or an allocation failure.
pub fn last_of_logs(
    alloc: Global,
    first: Vec<Result<u32, u8>>,
    second: Vec<Result<u32, u8>>,
    third: Vec<Result<u32, u8>>,
) -> Result<Result<Option<u32>, u8>, AllocError>
    ensures { MatchResult result (λ r. r ≡ last_of (kmerged (λ x y. Ok (nat_le x y))
        (results first.items ∷ results second.items ∷ results third.items ∷ []))) (λ _. ⊤) }
{
    let logs = vec![in alloc;
        convert(first.into_iter()),
        convert(second.into_iter()),
        convert(third.into_iter()),
    ]?;
    let merged = kmerge_by(alloc, logs, |x: &u32, y: &u32| Ok(*x <= *y))?;
    Ok(merged.last())
}

/// The last line of two sorted logs together, by their order, or the first failure; or an allocation failure.
pub fn last_in_order(
    alloc: Global,
    first: Vec<Result<u32, u8>>,
    second: Vec<Result<u32, u8>>,
) -> Result<Result<Option<u32>, u8>, AllocError>
    ensures { MatchResult result (λ r. r ≡ last_of (kmerged_in_order (by_cmp nat_cmp)
        (results first.items ∷ results second.items ∷ []))) (λ _. ⊤) }
{
    let logs = vec![in alloc; convert(first.into_iter()), convert(second.into_iter())]?;
    let merged = kmerge(alloc, logs)?;
    Ok(merged.last())
}

/// The last line of many sorted logs together, or why there is none. If memory was refused, it says so, and nothing of the logs.
pub fn last_of_any_logs<I: FallibleIterator<Item = u32, Error = u8>>(
    alloc: Global,
    logs: Vec<I>,
) -> Result<Option<u32>, NoLast>
where
    requires can_next { Each I.contract.can_next logs.items }
    requires finite { Each I.contract.is_finite logs.items }
    ensures { (ls : List (List (Result ℕ ℕ))) → EachLists I.contract.steps logs.items ls
        → ¬ (result ≡ Err NoLast.Memory)
        → result ≡ last_of (failures_mapped (λ code. NoLast.Log code)
        (kmerged (λ x y. Ok (nat_le x y)) ls)) }
{
    let merged = kmerge_by(alloc, logs, |x: &u32, y: &u32| Ok(*x <= *y))?;
    merged.err_into().last()
}

/// The last change of the lines above 100, or the first failure.
pub fn last_change_above_100<I: FallibleIterator<Item = u32, Error = u8>>(
    lines: I,
) -> Result<Option<u32>, u8>
where
    requires can_next { I.contract.can_next lines }
    requires finite { I.contract.is_finite lines }
    ensures { (l : List (Result ℕ ℕ)) → Lists I.contract.steps lines l
        → result ≡ last_of (deduped nat_eq (filtered (λ x. Ok (nat_lt 100 x)) l)) }
{
    lines.filter(|line| Ok(*line > 100)).dedup().last()
}

/// The same of many sorted logs together; or an allocation failure. The merge is passed to the function above, which is proved over any source.
pub fn last_change_of_logs<I: FallibleIterator<Item = u32, Error = u8>>(
    alloc: Global,
    logs: Vec<I>,
) -> Result<Result<Option<u32>, u8>, AllocError>
where
    requires can_next { Each I.contract.can_next logs.items }
    requires finite { Each I.contract.is_finite logs.items }
    ensures { (ls : List (List (Result ℕ ℕ))) → EachLists I.contract.steps logs.items ls
        → MatchResult result (λ r. r ≡ last_of (deduped nat_eq
        (filtered (λ x. Ok (nat_lt 100 x)) (kmerged (λ x y. Ok (nat_le x y)) ls)))) (λ _. ⊤) }
{
    let merged = kmerge_by(alloc, logs, |x: &u32, y: &u32| Ok(*x <= *y))?;
    Ok(last_change_above_100(merged))
}
