// The rows of lines, in order, and their groups and batches, each printed as a line.
ghost use Rattle.std.specs.Prelude.{◌≡◌, ◌++◌, ◌+◌, ◌%◌, ◌^◌, ℕ, List, Option, Result, Some, Ok, Err, IfOk, MatchOption, MatchResult, OnErr, OnOk, map, vec_items, ⊤};
ghost use Rattle.std.specs.Io.KnownBytes.{Appends};
ghost use Rattle.std.specs.Str.Lines.{lines};
ghost use Rattle.fallible_iterator.specs.Lists.{Lists, collected, items, last_of, on_value};
ghost use Rattle.sum_groups.specs.Groups.{IsFaultOf, batches_text, ended_lines, first_fault, first_key, groups_text, line_of, reached, report_of, row_after, row_of, rows_in, rows_of, sum_of};
ghost use Rattle.std.specs.declared.vec.Vec.{Vec};
ghost use Rattle.std.specs.declared.alloc.Global.{Global};
ghost use Rattle.fallible_iterator.specs.declared.Fault.TheVariants.{Source};
ghost use Rattle.program_io.specs.declared.fault.RunFault.TheVariants.{Memory};
ghost use Rattle.sum_groups.specs.declared.fault.BadRow.{BadRow};
ghost use Rattle.sum_groups.specs.declared.groups.Row.{Row};

use crate::fault::{BadRow, GroupsFault, Wrong};
use fallible_iterator::{FallibleIterator, Fault, convert, convert_fused};
use fallible_itertools::FallibleItertools;
use program_io::fault::RunFault;
use program_io::numbers::number_of;
use program_io::writing::WriteText;
use std::alloc::{AllocError, Global};
use std::convert::Infallible;
use std::io;

/// How many rows a batch has.
const BATCH: usize = 3;

// A row: its key and its amount.
#[derive(Clone, Copy, Debug)]
pub(crate) struct Row {
    key: u64,
    amount: u64,
}

// The row that a line is, where it is one.
fn row_of(line: &str) -> Option<Row>
    ensures { result ≡ row_of line.now }
{
    let (key, amount) = line.split_once(',')?;
    match (number_of(key), number_of(amount)) {
        (Some(key), Some(amount)) => Some(Row { key, amount }),
        _ => None,
    }
}

// Counts a line, keeps the key of the row that it is, and returns the row; or what is wrong, if none was found there, or its key is below that of the row before.
fn row_at(before: &mut (u64, u64), found: Option<Row>) -> Result<Option<Row>, BadRow>
    ensures reached { before.new ≡ reached before.old found }
    ensures row { result ≡ row_after before.old found }
{
    let (lines, key) = *before;
    let place = lines.wrapping_add(1);
    let Some(row) = found else {
        *before = (place, key);
        return Err(BadRow {
            place,
            wrong: Wrong::NoRow,
        });
    };
    *before = (place, row.key);
    if row.key < key {
        return Err(BadRow {
            place,
            wrong: Wrong::Unsorted,
        });
    }
    Ok(Some(row))
}

// The rows that were found, or the first line that is wrong.
fn rows_found<I: FallibleIterator<Item = Option<Row>, Error = BadRow>>(
    alloc: Global,
    found: I,
) -> Result<Vec<Row>, Fault<BadRow>>
where
    requires can_next { I.contract.can_next found }
    requires finite { I.contract.is_finite found }
    ensures ok { (l : List (Result (Option Row) BadRow)) → Lists I.contract.steps found l
        → (rows : Vec Row Global) → result ≡ Ok rows → collected (rows_in l) ≡ Ok rows.items }
    ensures fault { (l : List (Result (Option Row) BadRow)) → Lists I.contract.steps found l
        → (bad : BadRow) → result ≡ Err (Source bad) → collected (rows_in l) ≡ Err bad }
{
    found.scan((0, 0), row_at).collect(alloc)
}

// The last of the rows that were found, or the first line that is wrong.
fn last_found<I: FallibleIterator<Item = Option<Row>, Error = BadRow>>(
    found: I,
) -> Result<Option<Row>, BadRow>
where
    requires can_next { I.contract.can_next found }
    requires finite { I.contract.is_finite found }
    ensures { (l : List (Result (Option Row) BadRow)) → Lists I.contract.steps found l
        → result ≡ last_of (rows_in l) }
{
    found.scan((0, 0), row_at).last()
}

// The rows that the lines of a text are, or the first line that is wrong.
fn rows_of(alloc: Global, text: &str) -> Result<Vec<Row>, Fault<BadRow>>
    ensures ok { (rows : Vec Row Global) → result ≡ Ok rows → rows_of text.now ≡ Ok rows.items }
    ensures fault { (bad : BadRow) → result ≡ Err (Source bad) → rows_of text.now ≡ Err bad }
{
    rows_found(
        alloc,
        convert_fused(text.lines().map(|line: &str| Ok(row_of(line)))),
    )
}

// The last of the rows that the lines of a text are, or the first line that is wrong. It allocates nothing.
fn last_row(text: &str) -> Result<Option<Row>, BadRow>
    ensures { result ≡ last_of (rows_in (items (map row_of (lines text.now)))) }
{
    last_found(convert_fused(text.lines().map(|line: &str| Ok(row_of(line)))))
}

// The first line of a text that is wrong, if there is one. It allocates nothing.
pub(crate) fn bad_row_of(text: &str) -> Option<BadRow>
    ensures { MatchOption result ((rows : List Row) × (rows_of text.now ≡ Ok rows))
        (λ bad. rows_of text.now ≡ Err bad) }
{
    match last_row(text) {
        Ok(_) => None,
        Err(bad) => Some(bad),
    }
}

// How many lines end within bytes.
fn ended_lines(bytes: &[u8]) -> u64
    ensures { result ≡ ended_lines bytes.now }
{
    let mut count: u64 = 0;
    for byte in bytes {
        if *byte == b'\n' {
            count += 1;
        }
    }
    count
}

// The first fault of bytes that are no UTF-8, by the front that is: a line that is wrong and ends before the place where the front does, or that place. It allocates nothing.
pub(crate) fn fault_before(front: &str, place: usize) -> GroupsFault
    ensures { result ≡ first_fault place (ended_lines front.now) (rows_of front.now) }
{
    match bad_row_of(front) {
        Some(bad) if bad.place <= ended_lines(front.as_bytes()) => GroupsFault::Row(bad),
        _ => GroupsFault::NotText(place),
    }
}

// The sum of the amounts, where it fits.
fn sum_of(rows: &[Row]) -> Result<Option<u64>, Infallible>
    ensures { result ≡ sum_of rows.now }
{
    convert(rows.iter().copied().map(Ok))
        .map(|row: Row| Ok(row.amount))
        .checked_sum()
}

// Writes the line of some rows under a name.
fn write_line<W: WriteText>(report: &mut W, name: u64, rows: &[Row]) -> io::Result<()>
    ensures line { OnOk result
        (Appends (W.written report.old) (W.written report.new) (line_of name rows.now)) }
    ensures failed { OnErr result (W.failed report.new) }
{
    let many = rows.len();
    match sum_of(rows) {
        Ok(Some(sum)) => report.write_text(format_args!("{name}: {many} rows, {sum}\n")),
        Ok(None) => report.write_text(format_args!("{name}: {many} rows, too large\n")),
        Err(never) => match never {},
    }
}

// The report with the line of some rows after it, under a name.
fn print_line(
    mut report: Vec<u8>,
    name: u64,
    rows: &[Row],
) -> Result<Vec<u8>, RunFault<GroupsFault>>
    ensures { MatchResult result
        (λ printed. vec_items printed ≡ vec_items report ++ line_of name rows.now)
        (λ fault. fault ≡ Memory) }
{
    match write_line(&mut report, name, rows) {
        Ok(()) => Ok(report),
        // No memory: writing to a vector fails only if an allocation does.
        Err(_) => Err(RunFault::Memory),
    }
}

// The report with one line a group of adjacent rows of one key after it.
fn print_groups(
    alloc: Global,
    report: Vec<u8>,
    rows: &[Row],
) -> Result<Vec<u8>, RunFault<GroupsFault>>
    ensures { MatchResult result
        (λ printed. vec_items printed ≡ vec_items report ++ groups_text rows.now)
        (λ fault. fault ≡ Memory) }
{
    convert::<Row, AllocError, _>(rows.iter().copied().map(Ok))
        .chunk_by(alloc, |row: &Row| Ok(row.key))
        .try_fold(report, |report: Vec<u8>, group: (u64, Vec<Row>)| {
            print_line(report, group.0, group.1.as_slice())
        })
}

// The report with one line a batch of three rows after it, under the key of its first row.
fn print_batches(
    alloc: Global,
    report: Vec<u8>,
    rows: &[Row],
) -> Result<Vec<u8>, RunFault<GroupsFault>>
    ensures { MatchResult result
        (λ printed. vec_items printed ≡ vec_items report ++ batches_text rows.now)
        (λ fault. fault ≡ Memory) }
{
    convert::<Row, AllocError, _>(rows.iter().copied().map(Ok))
        .chunks(alloc, BATCH)
        .try_fold(report, |report: Vec<u8>, batch: Vec<Row>| {
            print_line(report, first_key(batch.as_slice()), batch.as_slice())
        })
}

// The key of the first row, 0 of none.
fn first_key(rows: &[Row]) -> u64
    ensures { result ≡ first_key rows.now }
{
    match rows.first() {
        Some(row) => row.key,
        None => 0,
    }
}

// The groups and then the batches of rows, each under a heading.
fn print_both(alloc: Global, rows: &[Row]) -> Result<Vec<u8>, RunFault<GroupsFault>>
    ensures { MatchResult result (λ printed. vec_items printed ≡ report_of rows.now)
        (λ fault. fault ≡ Memory) }
{
    let heading = Vec::from_slice(alloc, b"groups\n")?;
    let mut groups = print_groups(alloc, heading, rows)?;
    groups.extend_from_slice(b"batches\n")?;
    print_batches(alloc, groups, rows)
}

// Why a text has no report, where memory was refused: the first line that is wrong, or otherwise that.
fn fault_of(text: &str) -> RunFault<GroupsFault>
    ensures { IsFaultOf (λ _. ⊤) text.now result }
{
    match bad_row_of(text) {
        Some(bad) => RunFault::Input(GroupsFault::Row(bad)),
        // No memory: it is asked only where an allocation failed.
        None => RunFault::Memory,
    }
}

// Something that makes reports in memory.
pub(crate) trait MakeReport {
    // It was refused the memory for the rows of a text, or for their report.
    ghost refused: { Self → List ℕ → Type 0 };

    // The report of the rows that the lines of a text are, or the first line that is wrong.
    fn report_of(&self, text: &str) -> Result<Vec<u8>, RunFault<GroupsFault>>
        ensures { MatchResult result (λ report. (rows : List Row) × (rows_of text.now ≡ Ok rows)
            × (vec_items report ≡ report_of rows)) (IsFaultOf (refused self.now) text.now) };
}

impl MakeReport for Global {
    // Std says of no request that it is granted.
    ghost refused = { λ _ _. ⊤ };

    fn report_of(&self, text: &str) -> Result<Vec<u8>, RunFault<GroupsFault>> {
        let rows = match rows_of(*self, text) {
            Ok(rows) => rows,
            Err(Fault::Source(bad)) => return Err(RunFault::Input(GroupsFault::Row(bad))),
            Err(Fault::Memory(_)) => return Err(fault_of(text)),
        };
        print_both(*self, rows.as_slice())
    }
}
