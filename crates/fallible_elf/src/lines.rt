//! The lines of sections, sets and ranges.
ghost use Rattle.std.specs.Prelude.{◌≡◌, ℕ, ◌++◌, [], ◌∷◌, List, Result, Ok, OnOk, OnErr, decimal, length};
ghost use Rattle.std.specs.Io.KnownBytes.{Appends};
ghost use Rattle.fallible_iterator.specs.Lists.{collected, Lists};
ghost use Rattle.fallible_elf.specs.Sections.{headers_of};
ghost use Rattle.fallible_elf.specs.Sets.{sets_of, ranges_of};
ghost use Rattle.fallible_elf.specs.Text.{shown, section_type, section_extent, section_line, set_line, range_line, lines_of, sections_text, sets_text, ranges_text};
ghost use Rattle.fallible_elf.specs.declared.fault.ElfFault.{ElfFault};

use crate::digits::{write_decimal, write_hex};
use crate::fault::ElfFault;
use crate::names::name_or_none;
use crate::ranges::{MOST, SetIn};
use crate::section::Section;
use crate::sections::sections_of;
use crate::set::{Range, Set};
use crate::sets::{SectionIn, has_ranges};
use fallible_iterator::FallibleIterator;
use fallible_iterator::laws::law_flat_map_finite;
use program_io::writing::{WriteText, write_escaped};
use std::io;

// What stands on a line of its own.
trait WriteLine {
    // The line, with its newline.
    ghost line: { Self → List ℕ };

    // Writes the line.
    fn write_line<W: WriteText>(&self, writer: &mut W) -> io::Result<()>
        ensures text { OnOk result
            (Appends (W.written writer.old) (W.written writer.new) (line self.now)) }
        ensures failed { OnErr result (W.failed writer.new) };
}

// Writes a name.
fn write_name<W: WriteText>(name: &[u8], writer: &mut W) -> io::Result<()>
    ensures text { OnOk result
        (Appends (W.written writer.old) (W.written writer.new) (shown name.now)) }
    ensures failed { OnErr result (W.failed writer.new) }
{
    for byte in name {
        write_escaped(*byte, writer)?;
    }
    Ok(())
}

// Writes the type and the address of a section.
fn write_type<W: WriteText>(section: &Section, writer: &mut W) -> io::Result<()>
    ensures text { OnOk result
        (Appends (W.written writer.old) (W.written writer.new) (section_type section.now)) }
    ensures failed { OnErr result (W.failed writer.new) }
{
    write_decimal(b" type ", section.kind as u64, writer)?;
    write_hex(b" address 0x", section.address, writer)
}

// Writes the offset and the size of a section, and the word before its name.
fn write_extent<W: WriteText>(section: &Section, writer: &mut W) -> io::Result<()>
    ensures text { OnOk result
        (Appends (W.written writer.old) (W.written writer.new) (section_extent section.now)) }
    ensures failed { OnErr result (W.failed writer.new) }
{
    write_hex(b" offset 0x", section.offset, writer)?;
    write_hex(b" size 0x", section.size, writer)?;
    writer.write_bytes(b" name ")
}

// Writes the line of a section.
fn write_section<W: WriteText>(
    file: &[u8],
    number: usize,
    section: &Section,
    writer: &mut W,
) -> io::Result<()>
    ensures text { OnOk result (Appends (W.written writer.old) (W.written writer.new)
        (section_line file.now number section.now)) }
    ensures failed { OnErr result (W.failed writer.new) }
{
    write_decimal(b"", number as u64, writer)?;
    write_type(section, writer)?;
    write_extent(section, writer)?;
    write_name(name_or_none(file, section.name), writer)?;
    writer.write_bytes(b"\n")
}

// A section of a file, and its number.
#[derive(Drop)]
struct Numbered<'a> {
    file: &'a [u8],
    number: usize,
    section: Section,
}

impl WriteLine for Numbered<'_> {
    ghost line = { λ s. section_line s.file.now s.number s.section };

    fn write_line<W: WriteText>(&self, writer: &mut W) -> io::Result<()> {
        write_section(self.file, self.number, &self.section, writer)
    }
}

// Writes the line of a range.
pub(crate) fn write_range<W: WriteText>(range: &Range, writer: &mut W) -> io::Result<()>
    ensures text { OnOk result
        (Appends (W.written writer.old) (W.written writer.new) (range_line range.now)) }
    ensures failed { OnErr result (W.failed writer.new) }
{
    write_hex(b"unit 0x", range.unit, writer)?;
    write_hex(b" address 0x", range.address, writer)?;
    write_hex(b" length 0x", range.length, writer)?;
    writer.write_bytes(b"\n")
}

impl WriteLine for Set {
    ghost line = { set_line };

    fn write_line<W: WriteText>(&self, writer: &mut W) -> io::Result<()> {
        write_hex(b"unit 0x", self.unit, writer)?;
        write_hex(b" from 0x", self.place as u64, writer)?;
        write_hex(b" to 0x", self.end as u64, writer)?;
        writer.write_bytes(b"\n")
    }
}

impl WriteLine for Range {
    ghost line = { range_line };

    fn write_line<W: WriteText>(&self, writer: &mut W) -> io::Result<()> {
        write_range(self, writer)
    }
}

// Writes the lines of what an iterator yields, up to its end or its first failure.
fn write_lines<T: WriteLine + Drop, I: FallibleIterator<Item = T, Error = ElfFault>, W: WriteText>(
    mut it: I,
    writer: &mut W,
) -> io::Result<()>
where
    requires can_next { I.contract.can_next it }
    requires finite { I.contract.is_finite it }
    ensures text { OnOk result ((l : List (Result T ElfFault)) → Lists I.contract.steps it l
        → Appends (W.written writer.old) (W.written writer.new) (lines_of T.line l)) }
    ensures failed { OnErr result (W.failed writer.new) }
{
    let mut left = it.number();
    loop {
        let item = match it.draw() {
            Ok(Some(item)) => item,
            Ok(None) => return Ok(()),
            Err(_) => return Ok(()),
        };
        item.write_line(writer)?;
        left = left.one_less();
    }
}

// Writes a word, a count and a newline.
fn write_count<W: WriteText>(word: &[u8], count: usize, writer: &mut W) -> io::Result<()>
    ensures text { OnOk result (Appends (W.written writer.old) (W.written writer.new)
        (word.now ++ decimal count ++ 10 ∷ [])) }
    ensures failed { OnErr result (W.failed writer.new) }
{
    write_decimal(word, count as u64, writer)?;
    writer.write_bytes(b"\n")
}

/// Writes the sections of a file, a line for each, after their count. Of a file that has a fault there, or another count, no clause says what is written.
pub fn write_sections<W: WriteText>(file: &[u8], count: usize, writer: &mut W) -> io::Result<()>
    ensures text { OnOk result ((sections : List Section)
        → collected (headers_of file.now) ≡ Ok sections → count ≡ length sections
        → Appends (W.written writer.old) (W.written writer.new)
        (sections_text file.now sections)) }
    ensures failed { OnErr result (W.failed writer.new) }
{
    write_count(b"sections ", count, writer)?;
    let numbered = sections_of(file).enumerate();
    let lines = numbered.map(|(number, section)| {
        Ok(Numbered {
            file,
            number,
            section,
        })
    });
    write_lines(lines, writer)
}

/// Writes the sets of a file, a line for each, after their count. Of a file that has a fault there, or another count, no clause says what is written.
pub fn write_sets<W: WriteText>(file: &[u8], count: usize, writer: &mut W) -> io::Result<()>
    ensures text { OnOk result ((sets : List Set)
        → collected (sets_of file.now) ≡ Ok sets → count ≡ length sets
        → Appends (W.written writer.old) (W.written writer.new) (sets_text sets)) }
    ensures failed { OnErr result (W.failed writer.new) }
{
    write_count(b"sets ", count, writer)?;
    let joined = sections_of(file)
        .filter(|section| Ok(has_ranges(file, section)))
        .flat_map(|section| Ok(SectionIn { file, section }));
    law_flat_map_finite(&joined, usize::MAX);
    write_lines(joined, writer)
}

/// Writes the ranges of a file, a line for each, after their count. Of a file that has a fault there, or another count, no clause says what is written.
pub fn write_ranges<W: WriteText>(file: &[u8], count: usize, writer: &mut W) -> io::Result<()>
    ensures text { OnOk result ((ranges : List Range)
        → collected (ranges_of file.now) ≡ Ok ranges → count ≡ length ranges
        → Appends (W.written writer.old) (W.written writer.new) (ranges_text ranges)) }
    ensures failed { OnErr result (W.failed writer.new) }
{
    write_count(b"ranges ", count, writer)?;
    let sets = sections_of(file)
        .filter(|section| Ok(has_ranges(file, section)))
        .flat_map(|section| Ok(SectionIn { file, section }));
    law_flat_map_finite(&sets, usize::MAX);
    let joined = sets.flat_map(|set| Ok(SetIn { file, set }));
    law_flat_map_finite(&joined, MOST);
    write_lines(joined, writer)
}
