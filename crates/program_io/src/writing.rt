//! Writers, and what a failed write leaves; and names as they are shown.
ghost use Rattle.std.specs.Prelude.{◌≡◌, ◌<◌, ℕ, List, Option, OnOk, OnErr, IfSome, IsTrue, ⊤};
ghost use Rattle.std.specs.Char.{digit_char};
ghost use Rattle.std.specs.Char.Escape.{escape_ascii};
ghost use Rattle.std.specs.Io.KnownBytes.{Appends};
ghost use Rattle.program_io.specs.Showing.{is_control, shown, shown_byte};

use std::fmt::Display;
use std::io;
use std::io::Write;

/// What takes a text whole or fails, as every writer does.
pub trait WriteText {
    // The bytes that it holds, where they are known.
    ghost written: { Self → Option (List ℕ) };

    // A writer that a failed write leaves.
    ghost failed: { Self → Type 0 };

    /// Writes a text.
    fn write_text<D: Display + Drop>(&mut self, text: D) -> io::Result<()>
        ensures whole { OnOk result (IfSome (D.output text)
            (Appends (written self.old) (written self.new))) }
        ensures failed { OnErr result (failed self.new) };

    /// Writes bytes.
    fn write_bytes(&mut self, bytes: &[u8]) -> io::Result<()>
        ensures whole { OnOk result
            (Appends (written self.old) (written self.new) bytes.now) }
        ensures failed { OnErr result (failed self.new) };
}

impl<W: Write> WriteText for W {
    ghost written = { W.contents };

    ghost failed = { λ _. ⊤ };

    fn write_text<D: Display + Drop>(&mut self, text: D) -> io::Result<()> {
        self.write_fmt(text)
    }

    fn write_bytes(&mut self, bytes: &[u8]) -> io::Result<()> {
        self.write_all(bytes)
    }
}

// The digit of a number below 16.
fn digit_of(number: u8) -> u8
    requires { number < 16 }
    ensures { result ≡ digit_char number }
{
    if number < 10 {
        48 + number
    } else {
        87 + number
    }
}

/// Writes a byte as Rust's `escape_ascii` shows it.
pub fn write_escaped<W: WriteText>(byte: u8, writer: &mut W) -> io::Result<()>
    ensures text { OnOk result
        (Appends (W.written writer.old) (W.written writer.new) (escape_ascii byte)) }
    ensures failed { OnErr result (W.failed writer.new) }
{
    match byte {
        b'\t' => writer.write_bytes(b"\\t"),
        b'\r' => writer.write_bytes(b"\\r"),
        b'\n' => writer.write_bytes(b"\\n"),
        b'\'' => writer.write_bytes(b"\\'"),
        b'"' => writer.write_bytes(b"\\\""),
        b'\\' => writer.write_bytes(b"\\\\"),
        32..=126 => writer.write_bytes(&[byte]),
        _ => writer.write_bytes(&[b'\\', b'x', digit_of(byte / 16), digit_of(byte % 16)]),
    }
}

// Whether a byte is a control character of ASCII.
fn is_control(byte: u8) -> bool
    ensures { result ≡ is_control byte }
{
    byte < 32 || byte == 127
}

// Writes a byte of a word.
fn write_shown_byte<W: WriteText>(byte: u8, writer: &mut W) -> io::Result<()>
    ensures text { OnOk result
        (Appends (W.written writer.old) (W.written writer.new) (shown_byte byte)) }
    ensures failed { OnErr result (W.failed writer.new) }
{
    if is_control(byte) {
        write_escaped(byte, writer)
    } else {
        writer.write_bytes(&[byte])
    }
}

// Whether a word is shown as it stands: it has no control character.
fn is_plain(word: &[u8]) -> bool
    ensures { IsTrue result → shown word.now ≡ word.now }
{
    for byte in word {
        if is_control(*byte) {
            return false;
        }
    }
    true
}

// Writes the bytes of a word, of which some are escaped.
fn write_each<W: WriteText>(word: &[u8], writer: &mut W) -> io::Result<()>
    ensures text { OnOk result
        (Appends (W.written writer.old) (W.written writer.new) (shown word.now)) }
    ensures failed { OnErr result (W.failed writer.new) }
{
    for byte in word {
        write_shown_byte(*byte, writer)?;
    }
    Ok(())
}

/// Writes a word, a file's name for one, in which control characters of ASCII are escaped. A word without any is one write.
pub fn write_shown<W: WriteText>(word: &str, writer: &mut W) -> io::Result<()>
    ensures text { OnOk result
        (Appends (W.written writer.old) (W.written writer.new) (shown word.now)) }
    ensures failed { OnErr result (W.failed writer.new) }
{
    if is_plain(word.as_bytes()) {
        writer.write_text(word)
    } else {
        write_each(word.as_bytes(), writer)
    }
}
