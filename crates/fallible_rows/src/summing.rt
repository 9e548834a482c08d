//! The sum of rows.
ghost use Rattle.std.specs.Prelude.{◌≡◌, ◌+◌, ◌%◌, ◌^◌, Ok};
ghost use Rattle.fallible_iterator.specs.Lists.{folded, taken};
ghost use Rattle.fallible_rows.specs.Rows.{rows};
ghost use Rattle.fallible_rows.specs.RowTraces.{row_results};

use crate::fault::RowFault;
use crate::rows::Rows;
use fallible_iterator::FallibleIterator;
use program_io::reading::Bytes;

/// The sum of the first n rows of these bytes, modulo 2 ^ 64. It fails with `Row` of the place, from 1, of the first of them that is no number.
pub fn sum_of_rows(bytes: &[u8], n: usize) -> Result<u64, RowFault>
    ensures { result ≡ folded (λ e. e) (λ s x. Ok ((s + x) % 2 ^ 64)) 0
        (taken n (row_results 1 (rows bytes.now))) }
{
    Rows::new(Bytes::new(bytes))
        .take(n)
        .fold(0, |sum: u64, number: u64| Ok(sum.wrapping_add(number)))
}
