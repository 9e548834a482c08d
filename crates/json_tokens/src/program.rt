// The program, over any input and any two outputs.
ghost use Rattle.fallible_json.specs.Faults.{status_of, text_of_text};
ghost use Rattle.fallible_json.specs.Report.{ComesTo};
ghost use Rattle.program_io.specs.Endings.{EndsWith};
ghost use Rattle.program_io.specs.Reading.{Fails};

use fallible_json::{MakeTexts, Prints, run};
use program_io::ending::ended;
use program_io::reading::ReadBytes;
use program_io::writing::WriteText;
use std::alloc::Global;

// Runs over `input`, and tells `errors` of a fault, with the name of the input where that has one. The status that the program ends with; an `Err` where there was a line to tell and it could not be written.
pub(crate) fn program<M: MakeTexts, R: ReadBytes, W: WriteText, E: WriteText>(
    alloc: Global,
    maker: &M,
    prints: Prints,
    input: &mut R,
    output: &mut W,
    name: Option<&str>,
    errors: &mut E,
) -> Result<u8, u8>
    ensures { EndsWith (λ fault. status_of fault.fault) text_of_text name.entry
        (E.written errors.old) (E.written errors.new) (E.failed errors.new)
        (ComesTo R.left (Fails R.left R.fails) input.old input.new (M.refused maker.now) prints
        W.failed (W.written output.old) (W.written output.new) output.new) result }
{
    ended(run(alloc, maker, prints, input, output), name, errors)
}
