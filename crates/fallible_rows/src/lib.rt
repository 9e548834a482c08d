//! Reads bytes, cuts them into rows, checks that each row is a number, and writes how
//! many are above 100.
#![tactic(auto)]

mod counting;
mod digits;
mod fault;
pub mod laws;
mod rows;
mod summing;

ghost use Rattle.fallible_rows.specs.Run.{ComesTo, LosesPrefix};

pub use fault::{BadRow, RowFault};
use program_io::fault::RunFault;
pub use program_io::reading::{Buffered, Bytes, ReadByte, ReadFailed};
use program_io::writing::WriteText;
pub use rows::Rows;
use std::alloc::Global;
pub use summing::sum_of_rows;

/// Reads the first 1,000,000 rows of `reader`, and nothing after them, and writes to `writer` how many of them are above 100, in decimal, and a newline. A row ends at each newline and at the end of the bytes; an empty last one is none. It reads at most `u64::MAX` bytes.
///
/// It fails with `Input` and the place, from 1, of the first of those rows that is not a number of 1 to 20 digits within `u64`; with `Read` where a read fails, for whatever reason, or a byte more than `u64::MAX` is wanted; with `Write` where the writer fails. Only at `Write` may something have been written that is not the report. It allocates nothing, and never fails with `Memory`.
///
/// After `Input` the reader yields what follows the newline of that row; after `Ok` and `Write` what follows the newline of row 1,000,000; and where that newline isn't there, it is at its end. After `Read` it has lost what was read so far, and no row closed by then was refused.
pub fn run<R: ReadByte, W: WriteText>(
    alloc: Global,
    reader: &mut R,
    writer: &mut W,
) -> Result<(), RunFault<BadRow>>
    ensures outcome { ComesTo R.left R.stays reader.old reader.new W.failed
        (W.written writer.old) (W.written writer.new) writer.new result }
    ensures taken { LosesPrefix (R.left reader.old) (R.left reader.new) }
{
    // Unused: the `run` of each program is called in one form, and the others allocate. `Memory` is for the caller, since the allocation of its buffer may fail.
    let _ = alloc;
    let count = match counting::count_above(reader) {
        Ok(count) => count,
        Err(RowFault::Row(place)) => return Err(RunFault::Input(BadRow { place })),
        Err(RowFault::Read) => return Err(RunFault::Read),
    };
    match writer.write_text(format_args!("{count}\n")) {
        Ok(()) => Ok(()),
        Err(_) => Err(RunFault::Write),
    }
}
