//! Fields of CSV, as psql writes them.
ghost use Rattle.std.specs.Prelude.{◌≡◌, ◌∷◌, ◌++◌, [], OnOk, OnErr};
ghost use Rattle.std.specs.Io.KnownBytes.{Appends};
ghost use Rattle.fallible_pg.specs.Putting.{StopsWithin};
ghost use Rattle.fallible_pg.specs.Csv.{csv_text, doubled, has_special, is_quoted, is_special, within_quotes};

use crate::putting::PutBytes;
use std::io;

// Whether a field with this byte is quoted: a quote, a comma, or an end of a line.
fn is_special(byte: u8) -> bool
    ensures { result ≡ is_special byte }
{
    byte == b'"' || byte == b',' || byte == b'\n' || byte == b'\r'
}

// Whether a field has such a byte.
fn has_special(field: &[u8]) -> bool
    ensures { result ≡ has_special field.now }
{
    for byte in field {
        if is_special(*byte) {
            return true;
        }
    }
    false
}

// Whether a field is quoted: it has such a byte, or is the mark that ends the data of COPY.
fn is_quoted(field: &[u8]) -> bool
    ensures { result ≡ is_quoted field.now }
{
    has_special(field) || field == b"\\.".as_slice()
}

// Writes a byte within quotes: a quote twice.
fn write_within<P: PutBytes>(byte: u8, writer: &mut P) -> io::Result<()>
    ensures text { OnOk result
        (Appends (P.written writer.old) (P.written writer.new) (within_quotes byte)) }
    ensures stops { OnErr result (StopsWithin P.written P.refuses writer.old writer.new
        (within_quotes byte)) }
{
    if byte == b'"' {
        writer.put_bytes(b"\"\"")
    } else {
        writer.put_bytes(&[byte])
    }
}

// Writes the bytes of a field within quotes.
fn write_doubled<P: PutBytes>(field: &[u8], writer: &mut P) -> io::Result<()>
    ensures text { OnOk result
        (Appends (P.written writer.old) (P.written writer.new) (doubled field.now)) }
    ensures stops { OnErr result (StopsWithin P.written P.refuses writer.old writer.new
        (doubled field.now)) }
{
    for byte in field {
        write_within(*byte, writer)?;
    }
    Ok(())
}

// Writes a field that is quoted.
fn write_quoted<P: PutBytes>(field: &[u8], writer: &mut P) -> io::Result<()>
    ensures text { OnOk result (Appends (P.written writer.old) (P.written writer.new)
        (34 ∷ doubled field.now ++ 34 ∷ [])) }
    ensures stops { OnErr result (StopsWithin P.written P.refuses writer.old writer.new
        (34 ∷ doubled field.now ++ 34 ∷ [])) }
{
    writer.put_bytes(b"\"")?;
    write_doubled(field, writer)?;
    writer.put_bytes(b"\"")
}

// Writes a field.
pub(crate) fn write_field<P: PutBytes>(field: &[u8], writer: &mut P) -> io::Result<()>
    ensures text { OnOk result
        (Appends (P.written writer.old) (P.written writer.new) (csv_text field.now)) }
    ensures stops { OnErr result (StopsWithin P.written P.refuses writer.old writer.new
        (csv_text field.now)) }
{
    if is_quoted(field) {
        write_quoted(field, writer)
    } else {
        writer.put_bytes(field)
    }
}
