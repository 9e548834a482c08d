//! Lines of a text.
ghost use Rattle.std.specs.Prelude.{◌≡◌, List, Result};
ghost use Rattle.fallible_iterator.specs.Lists.{Lists};
ghost use Rattle.example_tasks.specs.Lines.{number_at, sum_of};
ghost use Rattle.std.specs.declared.string.String.{String};
ghost use Rattle.std.specs.declared.alloc.Global.{Global};
ghost use Rattle.example_tasks.specs.declared.lines.LineFault.{LineFault};

use fallible_iterator::{FallibleIterator, convert_fused};
use program_io::numbers::number_of;
use std::alloc::Global;
use std::io::BufRead;

/// Why lines have no sum.
#[derive(Clone, Copy, Debug, PartialEq, Eq)]
pub enum LineFault {
    /// A line couldn't be read, or is no UTF-8.
    Read,
    /// The line at this place, from 1, is no number.
    Line(u64),
}

// The number that the line at this place is.
fn number_at(place: u64, line: &str) -> Result<u64, LineFault>
    ensures { result ≡ number_at place line.now }
{
    number_of(line).ok_or(LineFault::Line(place))
}

/// The sum of the numbers that lines are, modulo 2 ^ 64. It draws up to `Ok(None)` or the first failure, which is returned then. It fails with `Line` and the place of a line that is no number; places are counted modulo 2 ^ 64.
///
/// Requires that `next` may be called on the source, and that it is finite.
pub fn sum_of<I: FallibleIterator<Item = String, Error = LineFault>>(
    lines: I,
) -> Result<u64, LineFault>
where
    requires can_next { I.contract.can_next lines }
    requires finite { I.contract.is_finite lines }
    ensures { (l : List (Result (String Global) LineFault)) → Lists I.contract.steps lines l
        → result ≡ sum_of l }
{
    lines
        .scan(0, |place: &mut u64, line: String| {
            *place = place.wrapping_add(1);
            Ok(Some(number_at(*place, line.as_str())?))
        })
        .fold(0, |sum: u64, number: u64| Ok(sum.wrapping_add(number)))
}

/// The sum of the numbers that the lines of a reader are, modulo 2 ^ 64. It draws up to the first fault. It fails with `Read` where a line can't be read, and with `Line` and the place of a line that is no number; places are counted modulo 2 ^ 64. No clause says the value, since std's contract of `lines` says no list.
pub fn sum_of_lines<R: BufRead + Drop>(alloc: Global, reader: R) -> Result<u64, LineFault> {
    sum_of(convert_fused(reader.lines(alloc)).map_err(|_| LineFault::Read))
}
