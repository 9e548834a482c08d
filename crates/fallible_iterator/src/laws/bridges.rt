//! What a std iterator over a fallible one reads, and what becomes of it on the way back.
ghost use Rattle.std.specs.Prelude.{◌≡◌, List, Result, Ok, Err};
ghost use Rattle.std.specs.Result.{result_transpose};
ghost use Rattle.std.specs.Iterator.Runs.{EachRunFrom, ItemsAre};
ghost use Rattle.fallible_contract.specs.Traces.{Run};
ghost use Rattle.fallible_contract.specs.LawForm.{TracesAre};
ghost use Rattle.fallible_contract.specs.Lists.{Lists};
ghost use Rattle.fallible_core.specs.Bridges.Iterator.{iterator_parts};
ghost use Rattle.fallible_iterator.specs.Nests.{RunsAsSource};
ghost use Rattle.fallible_iterator.specs.Sources.Std.{IsAskable, IsAskableAtEnds};
ghost use Rattle.fallible_iterator.specs.Sources.Convert.{convert_parts};

use crate::sources::Convert;
use fallible_core::bridges::Iterator;
use fallible_core::{DoubleEndedFallibleIterator, FallibleIterator};

/// Position by position, the elements that std's `next` of an `Iterator` returns are its source's answers: an item or a failure is an element, an `Ok(None)` is `None`. It may be converted back, and drawn from then, wherever its source may be drawn from.
pub fn law_iterator<I: FallibleIterator>()
    ensures trace { TracesAre iterator_parts
        (λ s r t. ⟦<Iterator<I> as std::iter::Iterator>⟧.next_gives s (result_transpose r) t)
        (Run I.contract.steps) }
    ensures askable { (s : Iterator I) → I.contract.can_next (iterator_parts s)
        → IsAskable Ok Err ⟦<Iterator<I> as std::iter::Iterator>⟧.can_next
        ⟦<Iterator<I> as std::iter::Iterator>⟧.next_gives
        ⟦<Iterator<I> as std::iter::Iterator>⟧.remaining s }
    ensures converted { RunsAsSource (λ s. iterator_parts (convert_parts s)) I.contract.can_next
        I.contract.steps ⟦<Convert<Iterator<I>> as FallibleIterator>⟧.contract.steps }
    ensures lists { (s : Convert (Iterator I)) (it : Iterator I) (source : I)
        (l : List (Result I.Item I.Error))
        → convert_parts s ≡ it → iterator_parts it ≡ source → Lists I.contract.steps source l
        → Lists ⟦<Convert<Iterator<I>> as FallibleIterator>⟧.contract.steps s l }
{}

/// Position by position, the elements that std's `next_back` of an `Iterator` returns are its source's answers from the back. Draws from either end may follow one another in any order, also of what was converted back.
pub fn law_back_iterator<I: DoubleEndedFallibleIterator>()
    ensures trace { TracesAre iterator_parts
        (λ s r t. ⟦<Iterator<I> as std::iter::DoubleEndedIterator>⟧.next_back_gives s
        (result_transpose r) t)
        (Run I.ends.steps) }
    ensures askable { (s : Iterator I) → I.ends.can_next (iterator_parts s)
        → IsAskableAtEnds Ok Err ⟦<Iterator<I> as std::iter::Iterator>⟧.can_next
        ⟦<Iterator<I> as std::iter::DoubleEndedIterator>⟧.can_next_back
        ⟦<Iterator<I> as std::iter::Iterator>⟧.next_gives
        ⟦<Iterator<I> as std::iter::DoubleEndedIterator>⟧.next_back_gives
        ⟦<Iterator<I> as std::iter::Iterator>⟧.remaining s }
    ensures reads { (s : Iterator I) (l : List (Result I.Item I.Error))
        → Lists I.ends.steps (iterator_parts s) l
        → EachRunFrom ⟦<Iterator<I> as std::iter::DoubleEndedIterator>⟧.next_back_gives s
        (λ p. ItemsAre p l) }
{}
