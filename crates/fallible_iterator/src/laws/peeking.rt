// What the adapter that looks ahead lists.
ghost use Rattle.std.specs.Prelude.{List, Result};
ghost use Rattle.fallible_contract.specs.Lists.{Lists};
ghost use Rattle.fallible_core.specs.Peeking.Peekable.{held_then, peekable_held, peekable_source};

use fallible_core::peeking::Peekable;
use fallible_core::traits::FallibleIterator;

/// Over a source that lists l `Peekable` lists l after what is buffered: an item, an `Ok(None)`, or nothing.
pub fn law_peekable<I: FallibleIterator>()
where
    I::Item: Drop,
    ensures lists { (s : Peekable I I.Item I.Error) (l : List (Result I.Item I.Error))
        → Lists I.contract.steps (peekable_source s) l
        → Lists ⟦<Peekable<I> as FallibleIterator>⟧.contract.steps s
        (held_then (peekable_held s) l) }
{}
