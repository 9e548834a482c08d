//! Rows of a client, for code that wants a std iterator.
ghost use Rattle.std.specs.Prelude.{◌≡◌, Ok, List, Result, length, nat_lt};
ghost use Rattle.std.specs.Iterator.{IsFinite};
ghost use Rattle.std.specs.Iterator.Runs.{CountFits, EachRunFrom, ItemsAre};
ghost use Rattle.fallible_iterator.specs.Lists.{results, filtered};

use fallible_iterator::prelude::*;

/// A row of a client.
#[derive(Clone, Copy, Debug, PartialEq, Eq)]
pub struct Row {
    /// Whose it is.
    pub account: u32,
    /// How much it is.
    pub amount: u32,
}

/// The connection broke before a row came.
#[derive(Clone, Copy, Debug, PartialEq, Eq)]
pub struct Lost;

/// How many elements a std iterator yields up to its `None`: code that knows nothing of fallible iterators. It draws up to the `None`.
///
/// Requires that the iterator may be drawn from and ends, and that the number fits a `usize`.
pub fn count_elements<S: std::iter::Iterator<Item = Result<Row, Lost>>>(rows: S) -> usize
    requires can { S.can_next rows }
    requires finite { IsFinite (S.remaining rows) }
    requires fits { CountFits S.next_gives S.remaining 0 rows }
    ensures { (l : List (Result Row Lost)) → EachRunFrom S.next_gives rows (λ p. ItemsAre p l)
        → result ≡ length l }
{
    rows.count()
}

/// How many lines a report on the rows above 100 has. It draws all rows; a lost connection has a line too, and ends nothing.
pub fn report_above_100(rows: Vec<Result<Row, Lost>>) -> usize
    ensures { result ≡ length
        (filtered (λ row. Ok (nat_lt 100 row.amount)) (results rows.items)) }
{
    count_elements(
        convert(rows.into_iter())
            .filter(|row| Ok(row.amount > 100))
            .iterator(),
    )
}
