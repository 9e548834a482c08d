//! Two sorted sources, merged.
ghost use Rattle.std.specs.Prelude.{◌≡◌, ℕ, List, Result, Ok, None};
ghost use Rattle.fallible_iterator.specs.Contract.{KeptByDraws, parts_as};
ghost use Rattle.fallible_iterator.specs.Lists.{Lists, rest_first, nth_of};
ghost use Rattle.fallible_iterator.specs.Peeking.Peekable.{peekable_contract, peekable_parts};
ghost use Rattle.example_tasks.specs.Merging.{ListBoth, merged};

use fallible_iterator::{FallibleIterator, Peekable};

/// The lesser of the next items of two sources, and of equal ones that of the left; `None` if both return `Ok(None)`. It draws at most once from each, from the left first. It fails where the left does, or else the right. The other item stays buffered, and both may be used again, also after a failure.
///
/// Requires that `next` may be called on both.
pub fn next_merged<I, J>(
    left: &mut Peekable<I>,
    right: &mut Peekable<J>,
) -> Result<Option<u32>, I::Error>
where
    I: FallibleIterator<Item = u32>,
    J: FallibleIterator<Item = u32, Error = I::Error>,
    requires left { (peekable_contract I.contract).can_next (peekable_parts left.old) }
    requires right { (peekable_contract J.contract).can_next (peekable_parts right.old) }
    ensures value { (a b : List (Result ℕ I.Error))
        → Lists (parts_as peekable_parts (peekable_contract I.contract)).steps left.old a
        → Lists (parts_as peekable_parts (peekable_contract J.contract)).steps right.old b
        → result ≡ nth_of 0 (merged a b) }
    ensures rest { (a b : List (Result ℕ I.Error))
        → Lists (parts_as peekable_parts (peekable_contract I.contract)).steps left.old a
        → Lists (parts_as peekable_parts (peekable_contract J.contract)).steps right.old b
        → ¬ (result ≡ Ok None)
        → ListBoth (parts_as peekable_parts (peekable_contract I.contract)).steps
        (parts_as peekable_parts (peekable_contract J.contract)).steps
        left.new right.new (rest_first (merged a b)) }
    ensures left { KeptByDraws (peekable_contract I.contract)
        (peekable_parts left.old) (peekable_parts left.new) }
    ensures right { KeptByDraws (peekable_contract J.contract)
        (peekable_parts right.old) (peekable_parts right.new) }
{
    let Some(first) = left.peek_copied()? else {
        return right.draw();
    };
    match right.next_if(|second| *second < first)? {
        Some(second) => Ok(Some(second)),
        None => left.draw(),
    }
}
