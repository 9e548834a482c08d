//! How a program ends.
ghost use Rattle.program_io.specs.Endings.{EndsAs};

use crate::fault::{InputFault, RunFault, fault_line};
use crate::writing::WriteText;

/// Ends a program: the status of its run's outcome, 0 or that of its fault, of which it tells `errors`, with the name of its input where that has one. The status is an `Err` where there was a line to tell and it could not be written.
pub fn ended<F: InputFault + Drop, E: WriteText>(
    outcome: Result<(), RunFault<F>>,
    name: Option<&str>,
    errors: &mut E,
) -> Result<u8, u8>
    ensures { EndsAs F.status F.text name.entry (E.written errors.old) (E.written errors.new)
        (E.failed errors.new) outcome result }
{
    match outcome {
        Ok(()) => Ok(0),
        Err(fault) => fault_line(&fault, name, errors),
    }
}
