// The program, over any input and any two outputs.
ghost use Rattle.std.specs.Prelude.{◌≡◌, []};
ghost use Rattle.fallible_elf.specs.Finding as finding;
ghost use Rattle.fallible_elf.specs.Report.{status_of, text_of};
ghost use Rattle.program_io.specs.Endings.{EndsWith};
ghost use Rattle.program_io.specs.Reading.{Fails};
ghost use Rattle.elf_tables.specs.Program.{ComesTo};

use crate::chunks::Chunks;
use fallible_elf::fault::ElfFault;
use fallible_elf::finding::find;
use fallible_elf::report::run;
use program_io::ending::ended;
use program_io::fault::RunFault;
use program_io::reading::ReadBytes;
use program_io::writing::WriteText;
use std::alloc::Global;

// `run` over `input`. What `output` holds at its end is handed on.
fn run_whole<R: ReadBytes, W: WriteText>(
    alloc: Global,
    input: &mut R,
    output: &mut Chunks<W>,
) -> Result<(), RunFault<ElfFault>>
    requires { output.old.held.items ≡ [] }
    ensures { ComesTo R.left (Fails R.left R.fails) input.old input.new W.failed
        (W.written output.old.writer) (W.written output.new.writer) output.new.writer result }
{
    match run(alloc, input, output) {
        Ok(()) => match output.hand_on() {
            Ok(()) => Ok(()),
            Err(_) => Err(RunFault::Write),
        },
        Err(RunFault::Input(fault)) => match output.hand_on() {
            Ok(()) => Err(RunFault::Input(fault)),
            Err(_) => Err(RunFault::Write),
        },
        Err(RunFault::Read) => Err(RunFault::Read),
        Err(RunFault::Memory) => Err(RunFault::Memory),
        Err(RunFault::Write) => Err(RunFault::Write),
    }
}

// Prints the report of the file that `input` yields, and tells `errors` of a fault, with the name of the input where that has one. The status that the program ends with; an `Err` where there was a line to tell and it could not be written.
pub(crate) fn program<R: ReadBytes, W: WriteText, E: WriteText>(
    alloc: Global,
    input: &mut R,
    output: &mut Chunks<W>,
    name: Option<&str>,
    errors: &mut E,
) -> Result<u8, u8>
    requires { output.old.held.items ≡ [] }
    ensures { EndsWith status_of text_of name.entry
        (E.written errors.old) (E.written errors.new) (E.failed errors.new)
        (ComesTo R.left (Fails R.left R.fails) input.old input.new W.failed
        (W.written output.old.writer) (W.written output.new.writer) output.new.writer) result }
{
    ended(run_whole(alloc, input, output), name, errors)
}

// Prints the line of the first range that holds an address, of the file that `input` yields, and tells `errors` as `program` does.
pub(crate) fn program_finding<R: ReadBytes, W: WriteText, E: WriteText>(
    alloc: Global,
    address: u64,
    input: &mut R,
    output: &mut W,
    name: Option<&str>,
    errors: &mut E,
) -> Result<u8, u8>
    ensures { EndsWith finding.status_of finding.text_of name.entry
        (E.written errors.old) (E.written errors.new) (E.failed errors.new)
        (finding.Finds address W.failed (W.written output.old) (W.written output.new) output.new
        R.left (Fails R.left R.fails) input.old input.new) result }
{
    ended(find(alloc, address, input, output), name, errors)
}
