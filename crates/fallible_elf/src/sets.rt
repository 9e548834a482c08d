//! The sets of address ranges of a file.
ghost use Rattle.std.specs.Prelude.{◌≡◌, ◌-◌, ◌^◌, ◌<◌, ◌≤◌, length, IfOk};
ghost use Rattle.fallible_iterator.specs.Laws.Own.{lawful_bounded_by};
ghost use Rattle.fallible_iterator.specs.Laws.Showing.{lawful_listing};
ghost use Rattle.fallible_iterator.specs.Lists.{CollectedAs};
ghost use Rattle.fallible_iterator.specs.Own.{bounded_by};
ghost use Rattle.fallible_iterator.specs.Showing.{listing};
ghost use Rattle.fallible_elf.specs.Sets.{names_ranges, names_packed_ranges, has_ranges, is_compressed, relocates_lengths, region_of, range_sections, sets_between, sets_in, sets_of, saturating_count};

use crate::fault::{Damage, ElfFault};
use crate::numbers::u16_at;
use crate::section::Section;
use crate::sections::sections_of;
use crate::set::{Region, Set};
use fallible_iterator::laws::law_flat_map_finite;
use fallible_iterator::{FallibleIterator, Fault, IntoFallibleIterator};
use std::alloc::Global;

// Whether this is the place of the name `.debug_aranges`.
fn names_ranges(file: &[u8], name: Option<usize>) -> bool
    ensures { result ≡ names_ranges file.now name }
{
    match name {
        Some(place) => place <= file.len() && file[place..].starts_with(b".debug_aranges\0"),
        None => false,
    }
}

// Whether this is the place of the name `.zdebug_aranges`.
fn names_packed_ranges(file: &[u8], name: Option<usize>) -> bool
    ensures { result ≡ names_packed_ranges file.now name }
{
    match name {
        Some(place) => place <= file.len() && file[place..].starts_with(b".zdebug_aranges\0"),
        None => false,
    }
}

// Whether a section has address ranges.
#[tactic(auto, unfolding(crate::specs::Sets::has_ranges))]
pub(crate) fn has_ranges(file: &[u8], section: &Section) -> bool
    ensures { result ≡ has_ranges file.now section.now }
{
    section.kind == 1
        && (names_ranges(file, section.name) || names_packed_ranges(file, section.name))
}

// Whether a section is compressed.
#[tactic(auto, unfolding(crate::specs::Sets::is_compressed))]
fn is_compressed(file: &[u8], section: &Section) -> bool
    ensures { result ≡ is_compressed file.now section.now }
{
    section.flags / 2048 % 2 == 1 || names_packed_ranges(file, section.name)
}

// Whether the file's linker still has to write the lengths of ranges.
#[tactic(auto, unfolding(crate::specs::Sets::relocates_lengths))]
fn relocates_lengths(file: &[u8]) -> bool
    ensures { result ≡ relocates_lengths file.now }
{
    file.len() >= 20
        && u16_at(file, 16) == 1
        && (u16_at(file, 18) == 243 || u16_at(file, 18) == 258)
}

// The bytes of a section.
fn region_of(file: &[u8], section: &Section) -> Result<Region, ElfFault>
    ensures value { result ≡ region_of file.now section.now }
    ensures within { IfOk result (λ region. region.end ≤ length file.now) }
{
    let place = section.offset as usize;
    let size = section.size as usize;
    if file.len() < place || file.len() - place < size {
        return Err(ElfFault::at(place, Damage::SetsOutOfRange));
    }
    if is_compressed(file, section) {
        return Err(ElfFault::at(place, Damage::SetsCompressed));
    }
    if relocates_lengths(file) {
        return Err(ElfFault::at(place, Damage::SetsRelocated));
    }
    Ok(Region {
        place,
        end: place + size,
    })
}

/// The sets of a section, in their order. A draw reads the header of one set. After a fault each call returns `Ok(None)`. If the section has a fault before its sets, that is the one result before that.
#[derive(Drop)]
pub struct Sets<'a> {
    file: &'a [u8],
    // Where the next set begins.
    place: usize,
    // Where their section ends.
    end: usize,
    // What is returned after the last set.
    fault: Option<ElfFault>,
    ghost within: { end ≤ length file.now },
}

impl FallibleIterator for Sets<'_> {
    type Item = Set;

    type Error = ElfFault;

    ghost contract = { bounded_by (λ s. s.end - s.place)
        (listing (λ s. sets_between s.fault s.file.now s.place s.end)) };

    fn next(&mut self) -> Result<Option<Set>, ElfFault> {
        if self.end <= self.place {
            return match self.fault.take() {
                Some(fault) => Err(fault),
                None => Ok(None),
            };
        }
        match Set::read_at(self.file, self.end, self.place) {
            Ok(set) => {
                self.place = set.end;
                Ok(Some(set))
            }
            Err(fault) => {
                self.place = self.end;
                self.fault = None;
                Err(fault)
            }
        }
    }

    fn size_hint(&self) -> (usize, Option<usize>) {
        (0, None)
    }

    ghost lawful = { lawful_bounded_by (λ s. s.end - s.place)
        (lawful_listing (λ s. sets_between s.fault s.file.now s.place s.end)) };
}

/// A section that has address ranges, and the file in which it stands. It becomes the sets of the section.
#[derive(Clone, Copy, Drop)]
pub struct SectionIn<'a> {
    /// The file.
    pub file: &'a [u8],
    /// The section.
    pub section: Section,
}

impl<'a> IntoFallibleIterator for SectionIn<'a> {
    type Item = Set;

    type Error = ElfFault;

    type IntoFallibleIter = Sets<'a>;

    ghost into_gives = { λ of it. (sets_between it.fault it.file.now it.place it.end
        ≡ sets_in of.file.now of.section) × (it.end < 2 ^ 64) };

    fn into_fallible_iter(self) -> Sets<'a> {
        let file = self.file;
        let region = match region_of(file, &self.section) {
            Ok(region) => region,
            Err(fault) => {
                return Sets {
                    file,
                    place: 0,
                    end: 0,
                    fault: Some(fault),
                };
            }
        };
        Sets {
            file,
            place: region.place,
            end: region.end,
            fault: None,
        }
    }
}

/// The sections of a file that have address ranges, or its first fault.
pub fn range_sections(alloc: Global, file: &[u8]) -> Result<Vec<Section>, Fault<ElfFault>>
    ensures { CollectedAs (λ all v. v.items ≡ all) (range_sections file.now) result }
{
    sections_of(file)
        .filter(|section| Ok(has_ranges(file, section)))
        .collect(alloc)
}

/// The sets of all sections of a file that have address ranges, or its first fault.
pub fn all_sets(alloc: Global, file: &[u8]) -> Result<Vec<Set>, Fault<ElfFault>>
    ensures { CollectedAs (λ all v. v.items ≡ all) (sets_of file.now) result }
{
    let joined = sections_of(file)
        .filter(|section| Ok(has_ranges(file, section)))
        .flat_map(|section| Ok(SectionIn { file, section }));
    law_flat_map_finite(&joined, usize::MAX);
    joined.collect(alloc)
}

/// How many sets the sections of a file have that have address ranges, or 2 ^ 64 - 1 where there are more; or its first fault.
pub fn count_sets(file: &[u8]) -> Result<usize, ElfFault>
    ensures { result ≡ saturating_count (sets_of file.now) }
{
    let joined = sections_of(file)
        .filter(|section| Ok(has_ranges(file, section)))
        .flat_map(|section| Ok(SectionIn { file, section }));
    law_flat_map_finite(&joined, usize::MAX);
    joined.fold(0, |count: usize, _: Set| Ok(count.saturating_add(1)))
}
