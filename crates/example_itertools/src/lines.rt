//! Callers of `map_err_with_index`: a bad line is told by its number.
ghost use Rattle.std.specs.Prelude.{◌≡◌, ℕ, ◌+◌, ◌%◌, ◌^◌, List, Ok, Result, string_bytes};
ghost use Rattle.fallible_iterator.specs.Lists.{Lists, folded, mapped, results};
ghost use Rattle.fallible_itertools.specs.WithIndex.{failures_mapped_from};
ghost use Rattle.example_itertools.specs.Lines.{bad_line, number_in};
ghost use Rattle.example_itertools.specs.declared.lines.BadLine.{BadLine};
ghost use Rattle.example_itertools.specs.declared.lines.WhyBad.{WhyBad};
ghost use Rattle.std.specs.declared.string.String.{String};
ghost use Rattle.std.specs.declared.alloc.Global.{Global};

use fallible_iterator::{FallibleIterator, convert, convert_fused};
use fallible_itertools::FallibleItertools;
use program_io::numbers::number_of;
use std::alloc::Global;
use std::io::BufRead;

/// Why a line is bad.
#[derive(Clone, Copy, Debug, PartialEq, Eq)]
pub enum WhyBad {
    /// It couldn't be read, or is no UTF-8.
    Unread,
    /// It is no number.
    NoNumber,
}

/// A bad line: its number, from 1 on, and why it is bad.
#[derive(Clone, Copy, Debug, PartialEq, Eq)]
pub struct BadLine {
    /// its number, or `usize::MAX` if that is greater
    pub line: usize,
    /// why it is bad
    pub why: WhyBad,
}

// A bad line, by how many came before it.
fn bad_line(index: usize, why: WhyBad) -> BadLine
    ensures { result ≡ bad_line index why }
{
    BadLine {
        line: index.saturating_add(1),
        why,
    }
}

// The number that a line is.
fn number_in(line: &str) -> Result<u64, WhyBad>
    ensures { result ≡ number_in line.now }
{
    number_of(line).ok_or(WhyBad::NoNumber)
}

/// The sum of the rows, modulo 2 ^ 64, or the first bad one with its number.
pub fn sum_or_bad_row(rows: Vec<Result<u32, WhyBad>>) -> Result<u64, BadLine>
    ensures { result ≡ folded (λ e. e) (λ s x. Ok ((s + x) % 2 ^ 64)) 0
        (failures_mapped_from bad_line 0 (results rows.items)) }
{
    convert(rows.into_iter())
        .map_err_with_index(|index, why| bad_line(index, why))
        .fold(0, |sum: u64, row: u32| Ok(sum.wrapping_add(u64::from(row))))
}

/// The sum of the numbers that lines are, modulo 2 ^ 64, or the first bad line with its number. The lines may come of a reader, which has no bound on failures.
pub fn sum_or_bad_line<I: FallibleIterator<Item = String, Error = WhyBad>>(
    lines: I,
) -> Result<u64, BadLine>
where
    requires can_next { I.contract.can_next lines }
    requires finite { I.contract.is_finite lines }
    ensures { (l : List (Result (String Global) WhyBad)) → Lists I.contract.steps lines l
        → result ≡ folded (λ e. e) (λ s n. Ok ((s + n) % 2 ^ 64)) 0
        (failures_mapped_from bad_line 0 (mapped (λ line. number_in (string_bytes line)) l)) }
{
    lines
        .map(|line: String| number_in(line.as_str()))
        .map_err_with_index(|index, why| bad_line(index, why))
        .fold(0, |sum: u64, number: u64| Ok(sum.wrapping_add(number)))
}

/// The same over the lines of a reader. No clause says the value, since std's contract of `lines` says no list.
pub fn sum_or_bad_line_read<R: BufRead + Drop>(alloc: Global, reader: R) -> Result<u64, BadLine> {
    sum_or_bad_line(convert_fused(reader.lines(alloc)).map_err(|_| WhyBad::Unread))
}
