// The program, over any input and any two outputs.
ghost use Rattle.std.specs.Prelude.{◌≡◌, Some, false};
ghost use Rattle.fallible_pg.specs.Faults.{status_of, text_of};
ghost use Rattle.fallible_pg.specs.Putting.{LacksRoom};
ghost use Rattle.fallible_pg.specs.Report.{ComesTo};
ghost use Rattle.fallible_pg.specs.Rows.{rows_parts};
ghost use Rattle.fallible_pg.specs.Text.{form_of, row_text};
ghost use Rattle.program_io.specs.Endings.{EndsWith};

use fallible_pg::{Format, HoldText, ReadMessage, Rows, print_rows};
use program_io::ending::ended;
use program_io::writing::WriteText;

// Runs over `rows`, and tells `errors` of the notices and of a fault, with the name of the input where that has one. The status that the program ends with; an `Err` where there was a line to tell and it could not be written.
pub(crate) fn program<R: ReadMessage, T: HoldText, W: WriteText, E: WriteText>(
    rows: &mut Rows<R>,
    format: Format<'_>,
    text: &mut T,
    output: &mut W,
    name: Option<&str>,
    errors: &mut E,
) -> Result<u8, u8>
    requires { rows_parts rows.old
        ≡ (((rows_parts rows.old).0.0, Some 0), (rows_parts rows.old).1, false) }
    // The notices were told by then.
    ensures { (heard : E) × EndsWith status_of text_of name.entry
        (E.written heard) (E.written errors.new) (E.failed errors.new)
        (ComesTo R.left R.stays R.no_room
        (λ message. LacksRoom T.written T.refuses (row_text (form_of format.entry) message))
        (rows_parts rows.old).1 (form_of format.entry)
        (rows_parts rows.old).0.0 (rows_parts rows.new).0.0 W.failed
        (W.written output.old) (W.written output.new) output.new E.failed
        (E.written errors.old) (E.written heard) heard) result }
{
    ended(print_rows(rows, format, text, output, errors), name, errors)
}
