//! Rows as text.
ghost use Rattle.std.specs.Prelude.{◌≡◌, ◌∷◌, OnOk, OnErr};
ghost use Rattle.std.specs.Io.KnownBytes.{Appends};
ghost use Rattle.fallible_pg.specs.Cells.{shows_cells};
ghost use Rattle.fallible_pg.specs.Messages.{message_bytes};
ghost use Rattle.fallible_pg.specs.Putting.{StopsWithin};
ghost use Rattle.fallible_pg.specs.Text.{drawn_shown, drawn_text, field_text, form_of, further_text, row_text, separator};

use crate::cells::Cells;
use crate::csv;
use crate::putting::PutBytes;
use crate::rows::Row;
use fallible_iterator::FallibleIterator;
use program_io::writing::WriteText;
use std::io;

/// In which form rows are printed.
#[derive(Clone, Copy, Debug, PartialEq, Eq)]
pub struct Format<'a> {
    /// What a NULL is printed as.
    pub null: &'a [u8],
    /// Whether cells are fields of CSV, with a comma between each two; else they stand as they are, with a bar between.
    pub csv: bool,
}

impl<'a> Format<'a> {
    // What a cell has: its bytes, and what a NULL is printed as.
    fn shown(self, cell: Option<&'a [u8]>) -> &'a [u8]
        ensures { result.now ≡ drawn_shown (form_of self.entry) cell.entry }
    {
        match cell {
            Some(bytes) => bytes,
            None => self.null,
        }
    }

    // What stands between two cells.
    fn separator(self) -> u8
        ensures { result ≡ separator (form_of self.entry) }
    {
        if self.csv { b',' } else { b'|' }
    }
}

// Writes what a cell has.
fn write_shown<P: PutBytes>(format: Format<'_>, field: &[u8], writer: &mut P) -> io::Result<()>
    ensures whole { OnOk result (Appends (P.written writer.old) (P.written writer.new)
        (field_text (form_of format.entry) field.now)) }
    ensures stops { OnErr result (StopsWithin P.written P.refuses writer.old writer.new
        (field_text (form_of format.entry) field.now)) }
{
    if format.csv {
        csv::write_field(field, writer)
    } else {
        writer.put_bytes(field)
    }
}

// Writes a cell.
fn write_cell<P: PutBytes>(
    format: Format<'_>,
    cell: Option<&[u8]>,
    writer: &mut P,
) -> io::Result<()>
    ensures whole { OnOk result (Appends (P.written writer.old) (P.written writer.new)
        (drawn_text (form_of format.entry) cell.entry)) }
    ensures stops { OnErr result (StopsWithin P.written P.refuses writer.old writer.new
        (drawn_text (form_of format.entry) cell.entry)) }
{
    write_shown(format, format.shown(cell), writer)
}

// Writes a separator and a cell.
fn write_further_cell<P: PutBytes>(
    format: Format<'_>,
    cell: Option<&[u8]>,
    writer: &mut P,
) -> io::Result<()>
    ensures whole { OnOk result (Appends (P.written writer.old) (P.written writer.new)
        (separator (form_of format.entry) ∷ drawn_text (form_of format.entry) cell.entry)) }
    ensures stops { OnErr result (StopsWithin P.written P.refuses writer.old writer.new
        (separator (form_of format.entry) ∷ drawn_text (form_of format.entry) cell.entry)) }
{
    writer.put_bytes(&[format.separator()])?;
    write_cell(format, cell, writer)
}

// Writes the further cells, a separator before each, and a newline.
fn write_further<P: PutBytes>(
    format: Format<'_>,
    cells: &mut Cells<'_>,
    writer: &mut P,
) -> io::Result<()>
    ensures whole { OnOk result (Appends (P.written writer.old) (P.written writer.new)
        (further_text (form_of format.entry) (shows_cells cells.old))) }
    ensures stops { OnErr result (StopsWithin P.written P.refuses writer.old writer.new
        (further_text (form_of format.entry) (shows_cells cells.old))) }
{
    let count = cells.left();
    for _ in 0..count {
        match cells.next() {
            Ok(Some(cell)) => match write_further_cell(format, cell, writer) {
                Ok(()) => {}
                Err(error) => return Err(error),
            },
            Ok(None) => return writer.put_bytes(b"\n"),
            Err(_) => return writer.put_bytes(b"\n"),
        }
    }
    writer.put_bytes(b"\n")
}

// Puts the text of a row.
pub(crate) fn put_row<P: PutBytes>(row: &Row, format: Format<'_>, writer: &mut P) -> io::Result<()>
    ensures whole { OnOk result (Appends (P.written writer.old) (P.written writer.new)
        (row_text (form_of format.entry) (message_bytes row.now.message))) }
    ensures stops { OnErr result (StopsWithin P.written P.refuses writer.old writer.new
        (row_text (form_of format.entry) (message_bytes row.now.message))) }
{
    let mut cells = row.cells();
    match cells.next() {
        Ok(Some(cell)) => match write_cell(format, cell, writer) {
            Ok(()) => write_further(format, &mut cells, writer),
            Err(error) => Err(error),
        },
        Ok(None) => Ok(()),
        Err(_) => Ok(()),
    }
}

/// Writes a row as `psql -A -t` does, or as `psql --csv -t` does: its cells with a separator between each two, and a newline. A row without cells is nothing.
pub fn write_row<W: WriteText>(row: &Row, format: Format<'_>, writer: &mut W) -> io::Result<()>
    ensures whole { OnOk result (Appends (W.written writer.old) (W.written writer.new)
        (row_text (form_of format.entry) (message_bytes row.now.message))) }
    ensures failed { OnErr result (W.failed writer.new) }
{
    put_row(row, format, writer)
}
