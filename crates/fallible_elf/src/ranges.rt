//! The address ranges of a file.
ghost use Rattle.std.specs.Prelude.{◌≡◌, ◌-◌, ◌*◌, ◌^◌, ◌<◌, ◌≤◌, length};
ghost use Rattle.fallible_iterator.specs.Laws.Own.{lawful_bounded_by};
ghost use Rattle.fallible_iterator.specs.Laws.Showing.{lawful_listing};
ghost use Rattle.fallible_iterator.specs.Lists.{CollectedAs};
ghost use Rattle.fallible_iterator.specs.Own.{bounded_by};
ghost use Rattle.fallible_iterator.specs.Showing.{listing};
ghost use Rattle.fallible_elf.specs.Sets.{ranges_from, ranges_in, ranges_of, saturating_count};

use crate::fault::{Damage, ElfFault};
use crate::numbers::u64_at;
use crate::sections::sections_of;
use crate::set::{Range, Set};
use crate::sets::{SectionIn, has_ranges};
use fallible_iterator::laws::law_flat_map_finite;
use fallible_iterator::{FallibleIterator, Fault, IntoFallibleIterator};
use std::alloc::Global;

/// The ranges of a set, in their order. A draw reads one. If they have no end, it fails after the last one, and then each call returns `Ok(None)`.
#[derive(Drop)]
pub struct Ranges<'a> {
    file: &'a [u8],
    // Where the next range begins.
    place: usize,
    // For how many there is room.
    left: usize,
    unit: u64,
    // What is returned where the room ends.
    fault: Option<ElfFault>,
    ghost within: { 16 * left ≤ length file.now - place },
}

impl FallibleIterator for Ranges<'_> {
    type Item = Range;

    type Error = ElfFault;

    ghost contract = { bounded_by (λ s. s.left)
        (listing (λ s. ranges_from s.fault s.unit s.file.now s.place s.left)) };

    fn next(&mut self) -> Result<Option<Range>, ElfFault> {
        if self.left == 0 {
            return match self.fault.take() {
                Some(fault) => Err(fault),
                None => Ok(None),
            };
        }
        let address = u64_at(self.file, self.place);
        let length = u64_at(self.file, self.place + 8);
        if address == 0 && length == 0 {
            return Ok(None);
        }
        self.left -= 1;
        self.place += 16;
        Ok(Some(Range {
            unit: self.unit,
            address,
            length,
        }))
    }

    fn size_hint(&self) -> (usize, Option<usize>) {
        (0, None)
    }

    ghost lawful = { lawful_bounded_by (λ s. s.left)
        (lawful_listing (λ s. ranges_from s.fault s.unit s.file.now s.place s.left)) };
}

// No set has so many ranges.
pub(crate) const MOST: usize = 1 << 60;

/// A set and the file in which it stands. It becomes the ranges of the set.
#[derive(Clone, Copy, Drop)]
pub struct SetIn<'a> {
    /// The file.
    pub file: &'a [u8],
    /// The set.
    pub set: Set,
}

impl<'a> IntoFallibleIterator for SetIn<'a> {
    type Item = Range;

    type Error = ElfFault;

    type IntoFallibleIter = Ranges<'a>;

    ghost into_gives = { λ of it. (ranges_from it.fault it.unit it.file.now it.place it.left
        ≡ ranges_in of.file.now of.set) × (it.left < 2 ^ 60) };

    fn into_fallible_iter(self) -> Ranges<'a> {
        let file = self.file;
        let set = self.set;
        let left = set.end.min(file.len()).saturating_sub(set.place) / 16;
        Ranges {
            file,
            place: set.place,
            left,
            unit: set.unit,
            fault: Some(ElfFault::at(set.place + 16 * left, Damage::RangesNotEnded)),
        }
    }
}

/// The ranges of all sets of a file, or its first fault.
pub fn all_ranges(alloc: Global, file: &[u8]) -> Result<Vec<Range>, Fault<ElfFault>>
    ensures { CollectedAs (λ all v. v.items ≡ all) (ranges_of file.now) result }
{
    let sets = sections_of(file)
        .filter(|section| Ok(has_ranges(file, section)))
        .flat_map(|section| Ok(SectionIn { file, section }));
    law_flat_map_finite(&sets, usize::MAX);
    let joined = sets.flat_map(|set| Ok(SetIn { file, set }));
    law_flat_map_finite(&joined, MOST);
    joined.collect(alloc)
}

/// How many ranges the sets of a file have, or 2 ^ 64 - 1 where there are more; or its first fault.
pub fn count_ranges(file: &[u8]) -> Result<usize, ElfFault>
    ensures { result ≡ saturating_count (ranges_of file.now) }
{
    let sets = sections_of(file)
        .filter(|section| Ok(has_ranges(file, section)))
        .flat_map(|section| Ok(SectionIn { file, section }));
    law_flat_map_finite(&sets, usize::MAX);
    let joined = sets.flat_map(|set| Ok(SetIn { file, set }));
    law_flat_map_finite(&joined, MOST);
    joined.fold(0, |count: usize, _: Range| Ok(count.saturating_add(1)))
}
