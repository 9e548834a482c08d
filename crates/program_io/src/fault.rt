//! Why a run fails, and how that is told.
ghost use Rattle.std.specs.Prelude.{◌≡◌, ◌∷◌, ◌++◌, [], ℕ, List, MatchResult, OnErr, OnOk};
ghost use Rattle.std.specs.IoError.{error_kind};
ghost use Rattle.std.specs.Io.KnownBytes.{Appends};
ghost use Rattle.program_io.specs.Faults.{IsFaultOfRead, front_of, line_of, name_text, placed_text, status_of, text_of};

use crate::writing::{WriteText, write_shown};
use std::alloc::AllocError;
use std::io;
use std::io::ErrorKind;

/// What may be wrong with a program's input, and how that is told.
pub trait InputFault {
    // The status that the program ends with.
    ghost status: { Self → ℕ };

    // The text of the line that tells of it, without the newline.
    ghost text: { Self → List ℕ };

    /// The status that the program ends with.
    fn status(&self) -> u8
        ensures { result ≡ status self.now };

    /// Writes the line that tells of it, with its newline.
    fn write_line<W: WriteText>(&self, errors: &mut W) -> io::Result<()>
        ensures line { OnOk result (Appends (W.written errors.old) (W.written errors.new)
            (text self.now ++ 10 ∷ [])) }
        ensures failed { OnErr result (W.failed errors.new) };
}

/// Writes the line that tells what is wrong at a place of the input, as `row 3: not a number`, with its newline.
pub fn write_placed<W: WriteText>(
    unit: &str,
    place: u64,
    text: &str,
    errors: &mut W,
) -> io::Result<()>
    ensures line { OnOk result (Appends (W.written errors.old) (W.written errors.new)
        (placed_text unit.now place text.now ++ 10 ∷ [])) }
    ensures failed { OnErr result (W.failed errors.new) }
{
    errors.write_text(format_args!("{unit} {place}: {text}\n"))
}

/// Why a run made no report.
#[derive(Clone, Copy, Debug, PartialEq, Eq, Drop)]
pub enum RunFault<F> {
    /// The input has a fault.
    Input(F),
    /// A read failed.
    Read,
    /// An allocation failed, or a read for want of memory.
    Memory,
    /// The report could not be written.
    Write,
}

impl<F> From<AllocError> for RunFault<F> {
    ghost use Rattle.program_io.specs.declared.fault.RunFault.TheVariants.{Memory};

    ghost from_gives = { λ refused fault. fault ≡ Memory };

    /// `RunFault::Memory`
    fn from(_: AllocError) -> RunFault<F> {
        RunFault::Memory
    }
}

/// What a failed read comes to: `Memory` if it failed for want of memory, and otherwise `Read`.
pub fn fault_of_read<F>(error: &io::Error) -> RunFault<F>
    ensures { IsFaultOfRead (error_kind error.now) result }
{
    match error.kind() {
        ErrorKind::OutOfMemory => RunFault::Memory,
        _ => RunFault::Read,
    }
}

impl<F: InputFault> RunFault<F> {
    // The status that a program ends with.
    fn exit_status(&self) -> u8
        ensures { result ≡ status_of F.status self.now }
    {
        match self {
            RunFault::Input(fault) => fault.status(),
            RunFault::Read => 2,
            RunFault::Memory => 3,
            RunFault::Write => 4,
        }
    }

    // Writes what stands in front of the line that tells of it: the name of the input, where it has one, at a fault of it and at a failed read.
    fn write_front<W: WriteText>(&self, name: Option<&str>, errors: &mut W) -> io::Result<()>
        ensures front { OnOk result (Appends (W.written errors.old) (W.written errors.new)
            (front_of name.entry self.now)) }
        ensures failed { OnErr result (W.failed errors.new) }
    {
        match self {
            RunFault::Input(_) | RunFault::Read => write_name(name, errors),
            RunFault::Memory | RunFault::Write => Ok(()),
        }
    }

    // Writes the line that tells of it, with no name.
    fn write_rest<W: WriteText>(&self, errors: &mut W) -> io::Result<()>
        ensures line { OnOk result (Appends (W.written errors.old) (W.written errors.new)
            (text_of F.text self.now ++ 10 ∷ [])) }
        ensures failed { OnErr result (W.failed errors.new) }
    {
        match self {
            RunFault::Input(fault) => fault.write_line(errors),
            RunFault::Read => errors.write_text("read failed\n"),
            RunFault::Memory => errors.write_text("no memory\n"),
            RunFault::Write => errors.write_text("write failed\n"),
        }
    }

    // Writes the line that tells of it.
    fn write_whole_line<W: WriteText>(&self, name: Option<&str>, errors: &mut W) -> io::Result<()>
        ensures line { OnOk result (Appends (W.written errors.old) (W.written errors.new)
            (line_of F.text name.entry self.now)) }
        ensures failed { OnErr result (W.failed errors.new) }
    {
        self.write_front(name, errors)?;
        self.write_rest(errors)
    }
}

// Writes the name of an input that has one, and a colon.
fn write_name<W: WriteText>(name: Option<&str>, errors: &mut W) -> io::Result<()>
    ensures name { OnOk result
        (Appends (W.written errors.old) (W.written errors.new) (name_text name.entry)) }
    ensures failed { OnErr result (W.failed errors.new) }
{
    let Some(name) = name else {
        return Ok(());
    };
    write_shown(name, errors)?;
    errors.write_bytes(b": ")
}

/// Writes the one line that tells of `fault` to `errors`, and returns the status that a program ends with after it: that of the input's fault, 2 for `Read`, 3 for `Memory`, 4 for `Write`. The name of the input, where it has one, stands in front at `Input` and `Read`.
///
/// `Ok` of the status where that line and nothing else was written, and `Err` of the same status where it could not be, and part of it may have been. It allocates nothing.
pub fn fault_line<F: InputFault, W: WriteText>(
    fault: &RunFault<F>,
    name: Option<&str>,
    errors: &mut W,
) -> Result<u8, u8>
    ensures status { MatchResult result (λ status. status ≡ status_of F.status fault.now)
        (λ status. status ≡ status_of F.status fault.now) }
    ensures line { OnOk result
        (Appends (W.written errors.old) (W.written errors.new) (line_of F.text name.entry fault.now)) }
    ensures failed { OnErr result (W.failed errors.new) }
{
    let status = fault.exit_status();
    match fault.write_whole_line(name, errors) {
        Ok(()) => Ok(status),
        Err(_) => Err(status),
    }
}
