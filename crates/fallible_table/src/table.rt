//! A binary table: records of two numbers, little endian.
ghost use Rattle.std.specs.Prelude.{◌≡◌, ℕ, List, ◌+◌, ◌*◌, ◌%◌, ◌^◌, ◌<◌, ◌++◌, Ok, nat_lt, length};
ghost use Rattle.std.proofs.Common.{rules};
ghost use Rattle.fallible_iterator.specs.Contract.{around, counted_contract};
ghost use Rattle.fallible_iterator.specs.Laws.Contract.{lawful_around, lawful_with_traces};
ghost use Rattle.fallible_iterator.specs.Lists.{Lists, folded, position_in, filtered};
ghost use Rattle.fallible_table.specs.Tables.{bytes_left, bytes_put, table_contract, DrawsRecord, TakesRecords, record_of, records, is_low_to_high, checked, with_record, plus, placed_after, place_of, totals_of};
ghost use Rattle.fallible_table.specs.Laws.Tables.{records_traced};

use fallible_iterator::FallibleIterator;

/// Two numbers of a table.
#[derive(Clone, Copy, Debug, PartialEq, Eq)]
pub struct Record {
    /// The first.
    pub low: u32,
    /// The second, which is not below the first in a good record.
    pub high: u32,
}

/// The table ends within a record.
#[derive(Clone, Copy, Debug, PartialEq, Eq)]
pub struct CutShort;

impl Record {
    /// The record of eight bytes: two numbers, the least byte first.
    pub fn from_bytes(bytes: &[u8; 8]) -> Record
        ensures { result ≡ record_of bytes.now }
    {
        let [a, b, c, d, e, f, g, h] = *bytes;
        Record {
            low: u32::from_le_bytes([a, b, c, d]),
            high: u32::from_le_bytes([e, f, g, h]),
        }
    }

    /// Whether the first number is not above the second.
    pub fn is_low_to_high(&self) -> bool
        ensures { result ≡ is_low_to_high self.now }
    {
        self.low <= self.high
    }
}

/// The records of bytes, eight bytes each. A draw takes the bytes of one record. If fewer are left, it takes them and fails, and then each call returns `Ok(None)`.
#[derive(Drop)]
pub struct Records<'a> {
    /// The bytes that are left.
    pub bytes: &'a [u8],
}

impl FallibleIterator for Records<'_> {
    type Item = Record;

    type Error = CutShort;

    ghost contract = { around bytes_left table_contract };

    fn next(&mut self) -> Result<Option<Record>, CutShort> {
        if let Some((record, rest)) = self.bytes.split_first_chunk::<8>() {
            self.bytes = rest;
            return Ok(Some(Record::from_bytes(record)));
        }
        let is_cut = !self.bytes.is_empty();
        self.bytes = &[];
        if is_cut { Err(CutShort) } else { Ok(None) }
    }

    fn size_hint(&self) -> (usize, Option<usize>) {
        (0, None)
    }

    ghost lawful = { lawful_around bytes_put (lawful_with_traces
        {m = counted_contract DrawsRecord (λ bytes. length bytes)}
        TakesRecords records_traced (Prim.search rules)) };
}

/// The records of a table. Creating them draws nothing.
pub fn read<'a>(bytes: &'a [u8]) -> Records<'a>
    ensures same { result.bytes.now ≡ bytes.now }
    ensures lists { Lists ⟦<Records<'a> as FallibleIterator>⟧.contract.steps
        result (records bytes.now) }
{
    Records { bytes }
}

/// How many records come before the first one that isn't good; `None` if all are good. It draws up to that record. It fails where the table ends within a record and none before it is bad.
pub fn first_bad(bytes: &[u8]) -> Result<Option<usize>, CutShort>
    ensures { result ≡ position_in (λ r. Ok (nat_lt r.high r.low)) (records bytes.now) }
{
    read(bytes).position(|record| Ok(record.high < record.low))
}

/// The sum of the second numbers of the good records, modulo 2 ^ 64. It draws up to the table's end. It fails where that is within a record.
pub fn high_of_good(bytes: &[u8]) -> Result<u64, CutShort>
    ensures { result ≡ folded (λ e. e) (λ s r. Ok ((s + r.high) % 2 ^ 64)) 0
        (filtered (λ r. Ok (is_low_to_high r)) (records bytes.now)) }
{
    read(bytes)
        .filter(|record| Ok(record.is_low_to_high()))
        .fold(
            0,
            |sum: u64, record: Record| Ok(sum.wrapping_add(u64::from(record.high))),
        )
}

/// Why a table has no totals.
#[derive(Clone, Copy, Debug, PartialEq, Eq)]
pub enum TableFault {
    /// The record at this place, from 1, isn't good.
    Bad(usize),
    /// The table ends within the record at this place, from 1.
    Cut(usize),
}

/// What a table comes to.
#[derive(Clone, Copy, Debug, PartialEq, Eq)]
pub struct Totals {
    /// How many records there are.
    pub records: u64,
    /// The sum of their first numbers.
    pub low: u64,
    /// The sum of their second numbers.
    pub high: u64,
}

// The totals of no records.
pub(crate) const NO_TOTALS: Totals = Totals {
    records: 0,
    low: 0,
    high: 0,
};

impl Totals {
    // The totals with one record more, modulo 2 ^ 64.
    fn with(self, drawn: Record) -> Totals
        ensures { result ≡ with_record self drawn }
    {
        Totals {
            records: self.records.wrapping_add(1),
            low: self.low.wrapping_add(u64::from(drawn.low)),
            high: self.high.wrapping_add(u64::from(drawn.high)),
        }
    }

    // Both totals added, modulo 2 ^ 64.
    fn plus(self, more: Totals) -> Totals
        ensures { result ≡ plus self more }
    {
        Totals {
            records: self.records.wrapping_add(more.records),
            low: self.low.wrapping_add(more.low),
            high: self.high.wrapping_add(more.high),
        }
    }
}

impl TableFault {
    // The same fault, where so many records come before.
    fn placed_after(self, before: usize) -> TableFault
        requires { before + place_of self < 2 ^ 64 }
        ensures { result ≡ placed_after before self }
    {
        match self {
            TableFault::Bad(place) => TableFault::Bad(before + place),
            TableFault::Cut(place) => TableFault::Cut(before + place),
        }
    }
}

// The record, where it is good.
fn checked(place: usize, drawn: Record) -> Result<Record, TableFault>
    ensures { result ≡ checked place drawn }
{
    if drawn.is_low_to_high() {
        Ok(drawn)
    } else {
        Err(TableFault::Bad(place))
    }
}

/// The totals of a table, modulo 2 ^ 64. It draws up to the first fault. It fails with `Bad` at the first record that isn't good, and with `Cut` where the table ends within a record and none before it is bad.
pub fn sum_up(bytes: &[u8]) -> Result<Totals, TableFault>
    ensures { result ≡ totals_of bytes.now }
{
    let whole = bytes.len() / 8;
    read(bytes)
        .map_err(|_| TableFault::Cut(whole + 1))
        .enumerate()
        .map(|placed: (usize, Record)| checked(placed.0 + 1, placed.1))
        .fold(NO_TOTALS, |totals: Totals, record: Record| {
            Ok(totals.with(record))
        })
}

/// The totals of a table that begins with whole records of which the totals are known, and goes on with these bytes. It fails as `sum_up` does on the whole table.
pub fn sum_up_more(known: Totals, bytes: &[u8]) -> Result<Totals, TableFault>
    requires { known.records + length bytes.now + 1 < 2 ^ 64 }
    ensures { (first : List ℕ) → totals_of first ≡ Ok known → length first ≡ 8 * known.records
        → result ≡ totals_of (first ++ bytes.now) }
{
    match sum_up(bytes) {
        Ok(more) => Ok(known.plus(more)),
        Err(fault) => Err(fault.placed_after(known.records as usize)),
    }
}
