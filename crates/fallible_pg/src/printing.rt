//! What is told of rows that have a fault, and of notices.
ghost use Rattle.std.specs.Prelude.{◌≡◌, ◌++◌, OnOk, OnErr, codes};
ghost use Rattle.std.specs.Io.KnownBytes.{Appends};
ghost use Rattle.fallible_pg.specs.Messages.{message_bytes};
ghost use Rattle.fallible_pg.specs.Faults.{status_of, text_of, notice_text, field, further_line, refusal_text, is_call, is_copy, is_known, tag_status, tag_text, damage_status, damage_text};

use crate::fault::Damage;
use crate::kind::is_start;
use crate::message::Message;
use crate::strings::before_zero;
use program_io::fault::InputFault;
use program_io::writing::WriteText;
use std::io;

/// Why a run printed no more rows.
#[derive(Debug, Drop)]
pub enum PgInput {
    /// The server refused a statement, by this message.
    Server(Message),
    /// What it sent is damaged: the place of the message, in bytes from 0, and how.
    Damaged(u64, Damage),
}

// The field of a refusal that a letter names.
fn field(letter: u8, fields: &[u8]) -> &[u8]
    ensures { result.now ≡ field letter fields.now }
{
    let mut begins = true;
    for place in 0..fields.len() {
        let byte = fields[place];
        if begins && byte == letter {
            return before_zero(&fields[place + 1..]);
        }
        begins = byte == 0;
    }
    &[]
}

// Whether the tag is one of COPY.
fn is_copy(tag: u8) -> bool
    ensures { result ≡ is_copy tag }
{
    tag == b'G' || tag == b'H' || tag == b'W' || tag == b'c' || tag == b'd'
}

// Whether the tag is that of what a function's call returns.
fn is_call(tag: u8) -> bool
    ensures { result ≡ is_call tag }
{
    tag == b'V'
}

// Whether a message with this tag is known, and isn't read.
fn is_known(tag: u8) -> bool
    ensures { result ≡ is_known tag }
{
    is_copy(tag) || is_start(tag) || is_call(tag)
}

// The status of a damage.
fn damage_status(damage: Damage) -> u8
    ensures { result ≡ damage_status damage }
{
    match damage {
        Damage::Cut => 6,
        Damage::Tag(tag) => { if is_known(tag) { 7 } else { 5 } }
        _ => 5,
    }
}

// Writes a further line of a refusal, under a name, where the server tells it.
fn write_further<W: WriteText>(name: &str, field: &[u8], errors: &mut W) -> io::Result<()>
    ensures line { OnOk result (Appends (W.written errors.old) (W.written errors.new)
        (further_line name.now field.now)) }
    ensures failed { OnErr result (W.failed errors.new) }
{
    if field.is_empty() {
        return Ok(());
    }
    errors.write_text(format_args!("\n{name}:  "))?;
    errors.write_bytes(field)
}

// Writes how severe a refusal is, and its SQLSTATE.
fn write_severity<W: WriteText>(fields: &[u8], errors: &mut W) -> io::Result<()>
    ensures line { OnOk result (Appends (W.written errors.old) (W.written errors.new)
        (field 83 fields.now ++ codes ":  " ++ field 67 fields.now)) }
    ensures failed { OnErr result (W.failed errors.new) }
{
    errors.write_bytes(field(b'S', fields))?;
    errors.write_text(":  ")?;
    errors.write_bytes(field(b'C', fields))
}

// Writes what the server tells by a refusal or a notice.
fn write_refusal<W: WriteText>(fields: &[u8], errors: &mut W) -> io::Result<()>
    ensures line { OnOk result (Appends (W.written errors.old) (W.written errors.new)
        (refusal_text fields.now)) }
    ensures failed { OnErr result (W.failed errors.new) }
{
    write_severity(fields, errors)?;
    errors.write_text(": ")?;
    errors.write_bytes(field(b'M', fields))?;
    write_further("DETAIL", field(b'D', fields), errors)?;
    write_further("HINT", field(b'H', fields), errors)
}

// Writes the lines that are told of a notice.
pub(crate) fn write_notice<W: WriteText>(notice: &Message, errors: &mut W) -> io::Result<()>
    ensures line { OnOk result (Appends (W.written errors.old) (W.written errors.new)
        (notice_text (message_bytes notice.now))) }
    ensures failed { OnErr result (W.failed errors.new) }
{
    write_refusal(notice.body(), errors)?;
    errors.write_bytes(b"\n")
}

// Writes what is told of a tag.
fn write_tag<W: WriteText>(tag: u8, errors: &mut W) -> io::Result<()>
    ensures line { OnOk result (Appends (W.written errors.old) (W.written errors.new)
        (tag_text tag)) }
    ensures failed { OnErr result (W.failed errors.new) }
{
    if is_copy(tag) {
        return errors.write_text("COPY isn't read");
    }
    if is_start(tag) {
        return errors.write_text("a session's start isn't read");
    }
    if is_call(tag) {
        return errors.write_text("a function's call isn't read");
    }
    errors.write_text(format_args!("a message has the unexpected tag {tag}"))
}

// Writes what is told of a damage.
fn write_damage<W: WriteText>(damage: Damage, errors: &mut W) -> io::Result<()>
    ensures line { OnOk result (Appends (W.written errors.old) (W.written errors.new)
        (damage_text damage)) }
    ensures failed { OnErr result (W.failed errors.new) }
{
    match damage {
        Damage::Cut => errors.write_text("the connection ended within a message"),
        Damage::Length(length) => {
            errors.write_text(format_args!("a message states the length {length}"))
        }
        Damage::Tag(tag) => write_tag(tag, errors),
        Damage::Row => errors.write_text("the cells of a row don't fill it"),
        Damage::Columns => errors.write_text("the columns of a description don't fill it"),
    }
}

impl PgInput {
    // Writes what is told of it.
    fn write<W: WriteText>(&self, errors: &mut W) -> io::Result<()>
        ensures line { OnOk result (Appends (W.written errors.old) (W.written errors.new)
            (text_of self.now)) }
        ensures failed { OnErr result (W.failed errors.new) }
    {
        match self {
            PgInput::Server(message) => write_refusal(message.body(), errors),
            PgInput::Damaged(place, damage) => {
                errors.write_text(format_args!("byte {place}: "))?;
                write_damage(*damage, errors)
            }
        }
    }
}

impl InputFault for PgInput {
    ghost status = { status_of };

    ghost text = { text_of };

    fn status(&self) -> u8 {
        match self {
            PgInput::Server(_) => 1,
            PgInput::Damaged(_, damage) => damage_status(*damage),
        }
    }

    fn write_line<W: WriteText>(&self, errors: &mut W) -> io::Result<()> {
        self.write(errors)?;
        errors.write_bytes(b"\n")
    }
}
