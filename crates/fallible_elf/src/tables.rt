//! How much is read of a file.
ghost use Rattle.std.specs.Prelude.{◌≡◌, ◌≢◌, ◌^◌, ◌-◌, ◌⊎◌, Ok, Err, IfOk, IfErr, IsTrue, false};
ghost use Rattle.fallible_elf.specs.Report.{HasSectionsOf, HasFound, HasTables, found_of, named_sections, ranges_apart};
ghost use Rattle.fallible_elf.specs.Sets.{saturating_count, ranges_of, sets_of};
ghost use Rattle.fallible_elf.specs.declared.fault.ElfFault.{ElfFault};
ghost use Rattle.fallible_iterator.specs.Fault.{Fault};

use crate::fault::ElfFault;
use crate::names::check_names;
use crate::overlaps::check_apart;
use crate::ranges::count_ranges;
use crate::sections::sections_of;
use crate::sets::{count_sets, range_sections};
use fallible_iterator::{FallibleIterator, Fault};
use std::alloc::{AllocError, Global};

/// How many address ranges a file has.
#[derive(Clone, Copy, Debug, PartialEq, Eq)]
pub struct Found {
    /// How many sets of address ranges.
    pub sets: usize,
    /// How many ranges all sets have.
    pub ranges: usize,
}

/// How much is read of a file.
#[derive(Clone, Copy, Debug, PartialEq, Eq)]
pub struct Tables {
    /// How many sections.
    pub sections: usize,
    /// How many address ranges, or the first fault of these.
    pub found: Result<Found, ElfFault>,
}

// How many sections a file has, or the first fault of their headers and of their names together.
fn named_sections(file: &[u8]) -> Result<usize, ElfFault>
    ensures ok { IfOk result (HasSectionsOf file.now) }
    ensures fault { IfErr result (λ fault. named_sections file.now ≡ Err fault) }
{
    let sections = sections_of(file).count()?;
    check_names(file)?;
    Ok(sections)
}

// Whether the sections of address ranges of a file lie apart, or the first fault.
fn ranges_apart(alloc: Global, file: &[u8]) -> Result<(), Fault<ElfFault>>
    ensures ok { IfOk result (λ _. ranges_apart file.now ≡ Ok tt) }
    ensures fault { (fault : ElfFault) → result ≡ Err (Fault.Source fault)
        → ranges_apart file.now ≡ Err fault }
{
    let sections = range_sections(alloc, file)?;
    check_apart(alloc, file, sections.as_slice())
}

// Whether the counts are no bound at which they stopped.
fn is_exact(found: Found) -> bool
    ensures exact { IsTrue result → (found.sets ≢ 2 ^ 64 - 1) × (found.ranges ≢ 2 ^ 64 - 1) }
    ensures stopped { result ≡ false → (found.sets ≡ 2 ^ 64 - 1) ⊎ (found.ranges ≡ 2 ^ 64 - 1) }
{
    found.sets != usize::MAX && found.ranges != usize::MAX
}

// The counts, if they are exact.
fn exact(found: Found) -> Result<Found, AllocError>
    ensures ok { IfOk result (λ counts. (counts ≡ found) × (found.sets ≢ 2 ^ 64 - 1)
        × (found.ranges ≢ 2 ^ 64 - 1)) }
    ensures refused { IfErr result (λ _. (found.sets ≡ 2 ^ 64 - 1)
        ⊎ (found.ranges ≡ 2 ^ 64 - 1)) }
{
    // No memory: more than 2 ^ 64 - 1 sets or ranges, of some bytes each, have room in none.
    if !is_exact(found) {
        return Err(AllocError);
    }
    Ok(found)
}

// How many sets and ranges a file has, each up to 2 ^ 64 - 1; or their first fault.
fn counts_of(file: &[u8]) -> Result<Found, ElfFault>
    ensures sets { IfOk result (λ found. saturating_count (sets_of file.now) ≡ Ok found.sets) }
    ensures ranges { IfOk result (λ found.
        saturating_count (ranges_of file.now) ≡ Ok found.ranges) }
    ensures fault { IfErr result (λ fault. ranges_apart file.now ≡ Ok tt
        → found_of file.now ≡ Err fault) }
{
    let sets = count_sets(file)?;
    let ranges = count_ranges(file)?;
    Ok(Found { sets, ranges })
}

// How many sets and ranges a file has, or the first fault of these.
fn found_in(alloc: Global, file: &[u8]) -> Result<Found, Fault<ElfFault>>
    ensures ok { IfOk result (HasFound file.now) }
    ensures fault { (fault : ElfFault) → result ≡ Err (Fault.Source fault)
        → found_of file.now ≡ Err fault }
{
    ranges_apart(alloc, file)?;
    let found = match counts_of(file) {
        Ok(found) => found,
        Err(fault) => return Err(Fault::Source(fault)),
    };
    match exact(found) {
        Ok(found) => Ok(found),
        Err(e) => Err(Fault::Memory(e)),
    }
}

/// How many sections a file has, or the first fault of these; and how many sets and ranges, or the first fault of those.
pub fn tables_of(alloc: Global, file: &[u8]) -> Result<Tables, Fault<ElfFault>>
    ensures ok { IfOk result (λ tables. HasTables file.now tables) }
    ensures fault { (fault : ElfFault) → result ≡ Err (Fault.Source fault)
        → named_sections file.now ≡ Err fault }
{
    let sections = match named_sections(file) {
        Ok(sections) => sections,
        Err(fault) => return Err(Fault::Source(fault)),
    };
    match found_in(alloc, file) {
        Ok(found) => Ok(Tables {
            sections,
            found: Ok(found),
        }),
        Err(Fault::Source(fault)) => Ok(Tables {
            sections,
            found: Err(fault),
        }),
        Err(fault) => Err(fault),
    }
}
