//! The JSON texts that a reader yields, without blanks, each on a line.
ghost use Rattle.std.specs.Prelude.{◌≡◌, ◌+◌, ◌-◌, ◌*◌, ◌<◌, ◌≤◌, ◌^◌, OnErr, OnOk, length, take, drop};
ghost use Rattle.std.specs.Io.KnownBytes.{Appends};
ghost use Rattle.fallible_json.specs.Report.{ComesTo};
ghost use Rattle.fallible_json.specs.Taking.{Fits, IsLeft};
ghost use Rattle.fallible_json.specs.Writing.{CanTell, EndsFault, Fills, PrintsLast, PrintsPart, Sends, TakesLast, TakesPart, TellsFault};
ghost use Rattle.program_io.specs.Reading.{Fails};

use crate::fault::{JsonFault, TextFault};
use crate::making::MakeTexts;
use crate::texts::{Texts, valid_len};
use fallible_iterator::Fault;
use program_io::fault::{RunFault, fault_of_read};
use program_io::reading::{ReadBytes, read_after};
use program_io::writing::WriteText;
use std::alloc::Global;
use std::io;

/// What of a text is printed before it ends.
#[derive(Clone, Copy, Debug, PartialEq, Eq)]
pub enum Prints {
    /// Nothing: each text is printed when it ends, and of one that has a fault nothing. Its bytes are held in memory.
    Texts,
    /// Each token of an array or an object, soon after it came. Of a text that has a fault the tokens before that are printed, with no newline.
    Tokens,
}

// How many bytes are read at most, so that the numbers of lines fit a `usize`.
const MOST: usize = 1 << 61;

// Writes the first bytes of the lines.
fn write_first<W: WriteText>(texts: &Texts, count: usize, writer: &mut W) -> io::Result<()>
    requires { count ≤ length texts.now.lines.items }
    ensures text { OnOk result (Appends (W.written writer.old) (W.written writer.new)
        (take count texts.now.lines.items)) }
    ensures failed { OnErr result (W.failed writer.new) }
{
    if count == 0 {
        return Ok(());
    }
    writer.write_bytes(&texts.lines[..count])
}

// Writes the texts that ended, and where tokens are printed those of an array or an object that is begun; and lets go of what was written.
fn write_ended<W: WriteText>(texts: &mut Texts, prints: Prints, writer: &mut W) -> io::Result<()>
    requires { texts.old.whole ≤ length texts.old.lines.items }
    ensures text { OnOk result
        (Sends prints (W.written writer.old) (W.written writer.new) texts.old texts.new) }
    ensures failed { OnErr result (W.failed writer.new) }
{
    let all = match prints {
        Prints::Texts => false,
        Prints::Tokens => !texts.nesting.containers.is_empty(),
    };
    let count = if all { texts.lines.len() } else { texts.whole };
    write_first(texts, count, writer)?;
    texts.forget(all);
    Ok(())
}

// Writes what is printed before a fault, and tells of that.
fn end_with<W: WriteText>(
    fault: RunFault<TextFault>,
    texts: &Texts,
    prints: Prints,
    writer: &mut W,
) -> RunFault<TextFault>
    requires { texts.now.whole ≤ length texts.now.lines.items }
    ensures { EndsFault prints (W.written writer.old) (W.written writer.new) (W.failed writer.new) texts.now fault result }
{
    let count = match prints {
        Prints::Texts => texts.whole,
        Prints::Tokens => texts.lines.len(),
    };
    match write_first(texts, count, writer) {
        Ok(()) => fault,
        Err(_) => RunFault::Write,
    }
}

// Takes the texts of bytes of which the first ones are known to be UTF-8. How many are taken, and how many are UTF-8; or the first fault.
fn take_part<M: MakeTexts>(
    maker: &M,
    texts: &mut Texts,
    bytes: &[u8],
    checked: usize,
) -> Result<(usize, usize), Fault<JsonFault>>
    requires within { checked ≤ length bytes.now }
    requires fits { Fits texts.old (2 * length bytes.now + 1) }
    requires left { IsLeft texts.old.seen (take checked bytes.now) }
    ensures { TakesPart texts.old bytes.now checked (M.refused maker.now) texts.new result }
{
    let (more, broken) = valid_len(&bytes[checked..]);
    let valid = checked + more;
    let taken = maker.push(texts, &bytes[..valid])?;
    if broken {
        return Err(Fault::Source(texts.broken(&bytes[taken..valid])));
    }
    Ok((taken, valid))
}

// Takes the last bytes, of which the first ones are known to be UTF-8, and others begin a character.
fn take_last<M: MakeTexts>(
    maker: &M,
    texts: &mut Texts,
    bytes: &[u8],
    checked: usize,
) -> Result<(), Fault<JsonFault>>
    requires fits { Fits texts.old (2 * length bytes.now + 1) }
    ensures { TakesLast texts.old bytes.now checked (M.refused maker.now) texts.new result }
{
    if checked < bytes.len() {
        return Err(Fault::Source(texts.broken(&bytes[..checked])));
    }
    maker.finish(texts, bytes)
}

// Tells of a fault of the texts, of which those before it are counted.
fn tell<W: WriteText>(
    fault: Fault<JsonFault>,
    texts: &Texts,
    prints: Prints,
    writer: &mut W,
) -> RunFault<TextFault>
    requires { CanTell texts.now fault }
    ensures { TellsFault prints (W.written writer.old) (W.written writer.new)
        (W.failed writer.new) texts.now fault result }
{
    match fault {
        Fault::Source(fault) => {
            let text = texts.count + 1;
            end_with(
                RunFault::Input(TextFault { text, fault }),
                texts,
                prints,
                writer,
            )
        }
        // No memory: the fault has the error of an allocation, and that of a run doesn't keep it.
        Fault::Memory(_) => RunFault::Memory,
    }
}

// Takes the texts of bytes of which the first ones are known to be UTF-8, and writes them. How many bytes are taken, and how many are UTF-8.
fn print_part<M: MakeTexts, W: WriteText>(
    maker: &M,
    texts: &mut Texts,
    bytes: &[u8],
    checked: usize,
    prints: Prints,
    writer: &mut W,
) -> Result<(usize, usize), RunFault<TextFault>>
    requires within { checked ≤ length bytes.now }
    requires fits { Fits texts.old (2 * length bytes.now + 1) }
    requires left { IsLeft texts.old.seen (take checked bytes.now) }
    ensures { PrintsPart prints (W.written writer.old) (W.written writer.new) (W.failed writer.new)
        (M.refused maker.now) texts.old bytes.now checked texts.new result }
{
    match take_part(maker, texts, bytes, checked) {
        Ok(part) => match write_ended(texts, prints, writer) {
            Ok(()) => Ok(part),
            Err(_) => Err(RunFault::Write),
        },
        Err(fault) => Err(tell(fault, texts, prints, writer)),
    }
}

// Takes the last bytes, and writes the texts that end with them.
fn print_last<M: MakeTexts, W: WriteText>(
    maker: &M,
    texts: &mut Texts,
    bytes: &[u8],
    checked: usize,
    prints: Prints,
    writer: &mut W,
) -> Result<(), RunFault<TextFault>>
    requires fits { Fits texts.old (2 * length bytes.now + 1) }
    ensures { PrintsLast prints (W.written writer.old) (W.written writer.new) (W.failed writer.new)
        (M.refused maker.now) texts.old bytes.now checked result }
{
    match take_last(maker, texts, bytes, checked) {
        Ok(()) => match write_first(texts, texts.whole, writer) {
            Ok(()) => Ok(()),
            Err(_) => Err(RunFault::Write),
        },
        Err(fault) => Err(tell(fault, texts, prints, writer)),
    }
}

// Reads bytes into a buffer, after the first `held` ones, `most` at most. How many they are, 0 at the end.
fn fill<M: MakeTexts, R: ReadBytes>(
    maker: &M,
    reader: &mut R,
    buffer: &mut Vec<u8>,
    held: usize,
    most: usize,
) -> Result<usize, RunFault<TextFault>>
    requires within { held ≤ length buffer.old.items }
    requires some { 0 < most }
    requires fits { held + most < 2 ^ 64 }
    ensures { Fills R.left (Fails R.left R.fails) (M.refused maker.now) reader.old buffer.old.items
        held most result buffer.new.items reader.new }
{
    match maker.widen(buffer, held) {
        Ok(()) => {}
        // No memory: `widen` fails only if an allocation does, and its fault doesn't keep the error.
        Err(_) => return Err(RunFault::Memory),
    }
    let end = buffer.len().min(held + most);
    match read_after(reader, buffer.as_mut_slice(), held, end) {
        Ok(count) => Ok(count),
        Err(e) => Err(fault_of_read(&e)),
    }
}

// Moves the bytes of a buffer from `taken` to `filled` to its front.
fn keep_rest(buffer: &mut Vec<u8>, taken: usize, filled: usize)
    requires within { taken ≤ filled }
    requires room { filled ≤ length buffer.old.items }
    ensures room { length buffer.new.items ≡ length buffer.old.items }
    ensures rest { take (filled - taken) buffer.new.items
        ≡ take (filled - taken) (drop taken buffer.old.items) }
{
    if taken > 0 {
        buffer.copy_within(taken..filled, 0);
    }
}

/// Reads JSON texts up to the end of `reader`, which may be any reader of std, and writes each to `writer` without the blanks between its tokens, and a newline, as soon as it ends. It fails with `Input` at the first fault of a text, with `Read` where a read fails, or after 2 ^ 61 bytes, with `Memory` if that is for want of memory or `maker` has none, and with `Write` where the writer fails. What is printed of the bytes before a fault or a failed read is written first. An interrupted read is tried again.
pub fn run<M: MakeTexts, R: ReadBytes, W: WriteText>(
    alloc: Global,
    maker: &M,
    prints: Prints,
    reader: &mut R,
    writer: &mut W,
) -> Result<(), RunFault<TextFault>>
    ensures { ComesTo R.left (Fails R.left R.fails) reader.old reader.new (M.refused maker.now)
        prints W.failed (W.written writer.old) (W.written writer.new) writer.new result }
{
    let mut texts = Texts::new(alloc);
    let mut buffer: Vec<u8> = Vec::new(alloc);
    let mut held = 0;
    let mut checked = 0;
    let mut read = 0;
    while read < MOST {
        let count = match fill(maker, reader, &mut buffer, held, MOST - read) {
            Ok(count) => count,
            Err(fault) => return Err(end_with(fault, &texts, prints, writer)),
        };
        if count == 0 {
            return print_last(maker, &mut texts, &buffer[..held], checked, prints, writer);
        }
        let filled = held + count;
        let bytes = &buffer[..filled];
        let (taken, valid) = match print_part(maker, &mut texts, bytes, checked, prints, writer) {
            Ok(part) => part,
            Err(fault) => return Err(fault),
        };
        keep_rest(&mut buffer, taken, filled);
        held = filled - taken;
        checked = valid - taken;
        read += count;
    }
    Err(end_with(RunFault::Read, &texts, prints, writer))
}
