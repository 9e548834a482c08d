//! Prints rows, and tells of notices.
ghost use Rattle.std.specs.Prelude.{◌≡◌, Some, false};
ghost use Rattle.fallible_pg.specs.Putting.{LacksRoom};
ghost use Rattle.fallible_pg.specs.Report.{ComesTo, PutsReply, as_run_fault};
ghost use Rattle.fallible_pg.specs.Rows.{rows_parts};
ghost use Rattle.fallible_pg.specs.Text.{form_of, row_text};

use crate::fault::{Damage, PgFault};
use crate::holding::HoldText;
use crate::printing::{PgInput, write_notice};
use crate::reading::ReadMessage;
use crate::rows::{Reply, Rows};
use crate::text::Format;
use fallible_iterator::FallibleIterator;
use program_io::fault::RunFault;
use program_io::writing::WriteText;

// What a fault of rows is for the run.
fn run_fault(fault: PgFault) -> RunFault<PgInput>
    ensures { result ≡ as_run_fault fault }
{
    match fault {
        PgFault::Server(message) => RunFault::Input(PgInput::Server(message)),
        PgFault::Damaged(place, damage) => RunFault::Input(PgInput::Damaged(place, damage)),
        PgFault::Read => RunFault::Read,
        PgFault::Memory => RunFault::Memory,
    }
}

// Prints a row, by one write, or tells of a notice.
fn put_reply<T: HoldText, W: WriteText, E: WriteText>(
    reply: &Reply,
    format: Format<'_>,
    text: &mut T,
    output: &mut W,
    errors: &mut E,
) -> Result<(), RunFault<PgInput>>
    ensures { PutsReply W.failed (W.written output.old) (W.written output.new) output.new
        E.failed (E.written errors.old) (E.written errors.new) errors.new
        (form_of format.entry)
        (λ message. LacksRoom T.written T.refuses (row_text (form_of format.entry) message))
        reply.now result }
{
    match reply {
        Reply::Row(row) => {
            // No memory: a buffer refuses a row only for want of room.
            if !text.hold_row(row, format) {
                return Err(RunFault::Memory);
            }
            match output.write_bytes(text.held()) {
                Ok(()) => Ok(()),
                Err(_) => Err(RunFault::Write),
            }
        }
        Reply::Notice(notice) => match write_notice(notice, errors) {
            Ok(()) => Ok(()),
            Err(_) => Err(RunFault::Write),
        },
    }
}

/// Prints the rows in a form up to the first fault, and tells `errors` of the notices, each as it comes. A row is written as `write_row` does, by one write. `text` is the buffer that each is put into first, in the place of what it holds.
///
/// It fails with `Input` at the server's refusal and at damage; with `Read` where a read fails, or after 2 ^ 63 bytes; with `Memory` where there is no room for a message, or in `text` for that of a row; with `Write` where a writer fails. Only at `Write` may something have been written that is not whole rows.
///
/// Requires that no row was drawn.
pub fn print_rows<R: ReadMessage, T: HoldText, W: WriteText, E: WriteText>(
    rows: &mut Rows<R>,
    format: Format<'_>,
    text: &mut T,
    output: &mut W,
    errors: &mut E,
) -> Result<(), RunFault<PgInput>>
    requires { rows_parts rows.old
        ≡ (((rows_parts rows.old).0.0, Some 0), (rows_parts rows.old).1, false) }
    ensures { ComesTo R.left R.stays R.no_room
        (λ message. LacksRoom T.written T.refuses (row_text (form_of format.entry) message))
        (rows_parts rows.old).1 (form_of format.entry)
        (rows_parts rows.old).0.0 (rows_parts rows.new).0.0 W.failed
        (W.written output.old) (W.written output.new) output.new E.failed
        (E.written errors.old) (E.written errors.new) errors.new result }
{
    for _ in 0..u64::MAX {
        match rows.next() {
            Ok(Some(reply)) => match put_reply(&reply, format, text, output, errors) {
                Ok(()) => {}
                Err(fault) => return Err(fault),
            },
            Ok(None) => return Ok(()),
            Err(fault) => return Err(run_fault(fault)),
        }
    }
    // Not reached: each row has at least five bytes, and their place fits a `u64`.
    Err(RunFault::Input(PgInput::Damaged(rows.place(), Damage::Cut)))
}
