// The program, over any input and any two outputs.
ghost use Rattle.fallible_rows.specs.Fault.{status_of, text_of};
ghost use Rattle.fallible_rows.specs.Run.{ComesTo};
ghost use Rattle.program_io.specs.Endings.{EndsWith};

use fallible_rows::{ReadByte, run};
use program_io::ending::ended;
use program_io::writing::WriteText;
use std::alloc::Global;

// Runs over `input`, and tells `errors` of a fault, with the name of the input where that has one. The status that the program ends with; an `Err` where there was a line to tell and it could not be written.
pub(crate) fn program<R: ReadByte, W: WriteText, E: WriteText>(
    alloc: Global,
    input: &mut R,
    output: &mut W,
    name: Option<&str>,
    errors: &mut E,
) -> Result<u8, u8>
    ensures { EndsWith status_of text_of name.entry
        (E.written errors.old) (E.written errors.new) (E.failed errors.new)
        (ComesTo R.left R.stays input.old input.new W.failed
        (W.written output.old) (W.written output.new) output.new) result }
{
    ended(run(alloc, input, output), name, errors)
}
