//! What a trace of the rows of a reader is.
ghost use Rattle.std.specs.Prelude.{ℕ, List, Option, Result, ◌↔◌};
ghost use Rattle.fallible_iterator.specs.Traces.{Answered, Run};
ghost use Rattle.fallible_rows.specs.RowTraces.{rows_parts, RowsTrace, IsPrefixOfRowAnswers, NeverFailsToRead, BeginsWith, CanGiveAll};
ghost use Rattle.fallible_rows.specs.declared.fault.RowFault.{RowFault};

use crate::rows::Rows;
use fallible_iterator::FallibleIterator;
use fallible_iterator::laws::law_headline;
use program_io::reading::ReadByte;

/// A trace of `Rows` is the answers of the rows of the bytes that were read, in order, and then, if the reader's end was met, `Ok(None)` at each position. If a byte was wanted and none came, it is the answers of the closed rows alone, the failure `Read`, and then `Ok(None)` at each position.
pub fn law_rows<B: ReadByte>()
    ensures { (s : Rows B) (trace : List (Answered ℕ RowFault)) (t : Rows B)
        → Run ⟦<Rows<B> as FallibleIterator>⟧.contract.steps s trace t
        ↔ RowsTrace B.left B.stays (rows_parts s) trace (rows_parts t) }
{
    law_headline::<Rows<B>>();
}

/// Over a reader that tells its bytes, fewer than the limit, a trace in which no read fails has for each of their rows, position by position, its number or the failure `Row` of the smaller of its place and `u32::MAX`, and then `Ok(None)` at each position. Each such trace is one that draws can return, if the reader can yield the bytes.
pub fn law_rows_of_bytes<B: ReadByte>()
    ensures only { (s : Rows B) (bytes : List ℕ) (trace : List (Answered ℕ RowFault)) (t : Rows B)
        → BeginsWith B.left B.stays (rows_parts s) bytes → NeverFailsToRead trace
        → Run ⟦<Rows<B> as FallibleIterator>⟧.contract.steps s trace t → IsPrefixOfRowAnswers bytes trace }
    ensures each { (s : Rows B) (bytes : List ℕ) (trace : List (Answered ℕ RowFault))
        → BeginsWith B.left B.stays (rows_parts s) bytes
        → CanGiveAll B.left B.stays (rows_parts s) bytes → IsPrefixOfRowAnswers bytes trace
        → (t : Rows B) × Run ⟦<Rows<B> as FallibleIterator>⟧.contract.steps s trace t }
{
    law_headline::<Rows<B>>();
}
