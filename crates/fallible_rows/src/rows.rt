//! Rows of a reader, as a fallible iterator.
ghost use Rattle.std.specs.Prelude.{◌≡◌, ◌-◌, ◌^◌, ◌<◌, ℕ, List, length, Some};
ghost use Rattle.fallible_iterator.specs.Contract.{AtMost, parts_as};
ghost use Rattle.fallible_iterator.specs.Laws.Contract.{lawful_parts};
ghost use Rattle.fallible_iterator.specs.Lists.{Lists};
ghost use Rattle.program_io.specs.Bytes.{NoReadFails};
ghost use Rattle.fallible_rows.specs.Rows.{rows};
ghost use Rattle.fallible_rows.specs.RowTraces.{rows_parts, rows_made, rows_contract, begun, row_results, ListsWhereRead};
ghost use Rattle.fallible_rows.specs.Laws.RowTraces.{lawful_rows};
ghost use Rattle.fallible_rows.specs.Digits.{ReadsRow};

use crate::digits::{Digits, number_ahead};
use crate::fault::RowFault;
use fallible_iterator::FallibleIterator;
use program_io::reading::ReadByte;

/// The rows of a reader: an item for each that is a number, and the failure `Row(K)` for each that is not, after which the next draw goes on with the next row. K is the place of the row, from 1, or `u32::MAX` where the place is above it.
///
/// The bytes are cut at each newline (byte 10), and an empty last piece is no row. A row is a number where it is 1 to 20 ASCII digits with a value of at most 18446744073709551615; zeros may come first, and a sign, a blank or a carriage return may not.
///
/// A draw reads one byte at a time from the reader, up to the newline that ends a row, and that newline, or to the input's end; a row is judged then, also if it was known before to be no number. A row that stands whole in the reader's buffer (`ReadByte::buffered`) may be taken from there at once, with its newline and no byte after it. If a read fails, for whatever reason, or a byte is wanted when as many as the limit were read, it fails with `Read`; the input's end wanted after the limit counts as a byte. An interrupted read isn't tried again. After `Read` and after the input's end each call returns `Ok(None)` and reads no more.
///
/// At most as many items come as bytes may be read. Neither its creation nor a draw allocates.
///
/// Proof: the clauses `finite` and `fits` of its creation say how many items come at most. So it may be drained with no `take`, and `stop_after(n)` bounds its items and failures together.
#[derive(Drop)]
pub struct Rows<B> {
    reader: B,
    // none once it is exhausted
    ahead: Option<Ahead>,
}

// What may still be read.
#[derive(Clone, Copy)]
pub(crate) struct Ahead {
    // how many bytes
    left: u64,
    // the place of the next row, from 1, or `u32::MAX` where it is above that
    place: u32,
}

impl<B: ReadByte> Rows<B> {
    /// The rows of `reader`, of which at most `u64::MAX` bytes are read. It reads nothing.
    pub fn new(reader: B) -> Rows<B>
        ensures parts { rows_parts result ≡ begun reader (2 ^ 64 - 1) }
        ensures finite { (parts_as rows_parts
            (rows_contract B.left B.stays)).is_finite result }
        ensures fits { AtMost (parts_as rows_parts
            (rows_contract B.left B.stays)) result (2 ^ 64 - 1) }
        ensures lists { (bytes : List ℕ) → NoReadFails B.stays → B.left reader ≡ Some bytes
            → length bytes < 2 ^ 64 - 1
            → Lists (parts_as rows_parts (rows_contract B.left B.stays)).steps
            result (row_results 1 (rows bytes)) }
        ensures lists_where_read { (bytes : List ℕ) → B.left reader ≡ Some bytes
            → length bytes < 2 ^ 64 - 1
            → ListsWhereRead B.left B.stays result (row_results 1 (rows bytes)) }
    {
        Rows::with_limit(reader, u64::MAX)
    }

    /// The rows of `reader`, of which at most `limit` bytes are read. It reads nothing.
    pub fn with_limit(reader: B, limit: u64) -> Rows<B>
        ensures parts { rows_parts result ≡ begun reader limit }
        ensures finite { (parts_as rows_parts
            (rows_contract B.left B.stays)).is_finite result }
        ensures fits { AtMost (parts_as rows_parts
            (rows_contract B.left B.stays)) result limit }
        ensures lists { (bytes : List ℕ) → NoReadFails B.stays → B.left reader ≡ Some bytes
            → length bytes < limit
            → Lists (parts_as rows_parts (rows_contract B.left B.stays)).steps
            result (row_results 1 (rows bytes)) }
        ensures lists_where_read { (bytes : List ℕ) → B.left reader ≡ Some bytes
            → length bytes < limit
            → ListsWhereRead B.left B.stays result (row_results 1 (rows bytes)) }
    {
        Rows {
            reader,
            ahead: Some(Ahead {
                left: limit,
                place: 1,
            }),
        }
    }
}

// What ended a row.
enum Close {
    // A newline, after which so many bytes may be read.
    Newline { left: u64 },
    // The reader's end.
    End,
    // A failed read, or a byte was wanted beyond the limit.
    Failure,
}

// Reads one row, of at most `limit` bytes with its newline: at once if it is a short number that stands whole in the buffer, and otherwise byte by byte.
fn read_row<B: ReadByte>(reader: &mut B, limit: u64) -> (Digits, Close)
    ensures { ReadsRow B.left B.stays reader.old limit result reader.new }
{
    if let Some((count, value)) = number_ahead(reader.buffered()) {
        let length = u64::from(count);
        if length < limit {
            reader.consume_buffered(usize::from(count) + 1);
            let left = limit - length - 1;
            return (Digits::Number { count, value }, Close::Newline { left });
        }
    }
    read_row_by_byte(reader, limit)
}

// The same by single bytes.
fn read_row_by_byte<B: ReadByte>(reader: &mut B, limit: u64) -> (Digits, Close)
    ensures { ReadsRow B.left B.stays reader.old limit result reader.new }
{
    let mut row = Digits::Empty;
    for read in 0..limit {
        match reader.read_byte() {
            Ok(Some(b'\n')) => {
                return (
                    row,
                    Close::Newline {
                        left: limit - read - 1,
                    },
                );
            }
            Ok(Some(byte)) => row = row.followed_by(byte),
            Ok(None) => return (row, Close::End),
            Err(_) => return (row, Close::Failure),
        }
    }
    (row, Close::Failure)
}

impl<B: ReadByte> FallibleIterator for Rows<B> {
    type Item = u64;

    type Error = RowFault;

    ghost contract = { parts_as rows_parts (rows_contract B.left B.stays) };

    /// Reads one row and what ends it, and nothing once it is exhausted.
    fn next(&mut self) -> Result<Option<u64>, RowFault> {
        let Some(Ahead { left, place }) = self.ahead.take() else {
            return Ok(None);
        };
        let (row, close) = read_row(&mut self.reader, left);
        match close {
            Close::Newline { left } => {
                let place_after = place.saturating_add(1);
                self.ahead = Some(Ahead {
                    left,
                    place: place_after,
                });
                row.answer(place)
            }
            Close::End => {
                if row.is_empty() {
                    Ok(None)
                } else {
                    row.answer(place)
                }
            }
            Close::Failure => Err(RowFault::Read),
        }
    }

    fn size_hint(&self) -> (usize, Option<usize>) {
        (0, None)
    }

    ghost lawful = { lawful_parts rows_made (lawful_rows B.left B.stays) };
}
