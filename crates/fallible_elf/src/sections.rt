//! The sections of a file.
ghost use Rattle.std.specs.Prelude.{◌≡◌, ◌+◌, ◌-◌, ◌*◌, ◌^◌, ◌≤◌, length};
ghost use Rattle.fallible_iterator.specs.Contract.{AtMost};
ghost use Rattle.fallible_iterator.specs.Laws.Own.{lawful_bounded_by};
ghost use Rattle.fallible_iterator.specs.Laws.Showing.{lawful_listing};
ghost use Rattle.fallible_iterator.specs.Lists.{Lists, CollectedAs};
ghost use Rattle.fallible_iterator.specs.Own.{bounded_by};
ghost use Rattle.fallible_iterator.specs.Showing.{listing};
ghost use Rattle.fallible_elf.specs.Sections.{headers_from, headers_of};

use crate::fault::ElfFault;
use crate::header::table_of;
use crate::section::Section;
use fallible_iterator::{FallibleIterator, Fault};
use std::alloc::Global;

/// The sections of a file, in the order of their headers. A draw reads one header, and fails where the name is damaged; the next draw goes on with the next header. Where the file has a fault before its headers, that is the one result before `Ok(None)`.
#[derive(Drop)]
pub struct Sections<'a> {
    file: &'a [u8],
    // Where the next header begins.
    place: usize,
    // How many headers are left.
    left: usize,
    names: usize,
    names_size: usize,
    // What is returned after the last header.
    fault: Option<ElfFault>,
    ghost headers_within: { place + 64 * left ≤ length file.now },
    ghost names_within: { names + names_size ≤ length file.now },
}

impl FallibleIterator for Sections<'_> {
    type Item = Section;

    type Error = ElfFault;

    ghost contract = { bounded_by (λ s. s.left)
        (listing (λ s. headers_from s.names s.names_size s.fault s.file.now s.place s.left)) };

    fn next(&mut self) -> Result<Option<Section>, ElfFault> {
        if self.left == 0 {
            return match self.fault.take() {
                Some(fault) => Err(fault),
                None => Ok(None),
            };
        }
        let place = self.place;
        self.left -= 1;
        self.place += 64;
        match Section::named_at(self.names, self.names_size, self.file, place) {
            Ok(section) => Ok(Some(section)),
            Err(fault) => Err(fault),
        }
    }

    fn size_hint(&self) -> (usize, Option<usize>) {
        (0, None)
    }

    ghost lawful = { lawful_bounded_by (λ s. s.left)
        (lawful_listing (λ s. headers_from s.names s.names_size s.fault s.file.now s.place s.left)) };
}

/// The sections of a file. Creating them reads where the headers are, and none of them.
pub fn sections_of<'a>(file: &'a [u8]) -> Sections<'a>
    ensures lists { Lists ⟦<Sections<'a> as FallibleIterator>⟧.contract.steps result
        (headers_of file.now) }
    ensures fits { AtMost ⟦<Sections<'a> as FallibleIterator>⟧.contract result (2 ^ 64 - 1) }
{
    let table = match table_of(file) {
        Ok(table) => table,
        Err(fault) => {
            return Sections {
                file,
                place: 0,
                left: 0,
                names: 0,
                names_size: 0,
                fault: Some(fault),
            };
        }
    };
    Sections {
        file,
        place: table.place,
        left: table.count,
        names: table.names,
        names_size: table.names_size,
        fault: None,
    }
}

/// The sections of a file, all of them, or its first fault.
pub fn all_sections(alloc: Global, file: &[u8]) -> Result<Vec<Section>, Fault<ElfFault>>
    ensures { CollectedAs (λ all v. v.items ≡ all) (headers_of file.now) result }
{
    sections_of(file).collect(alloc)
}
