//! Sections whose bytes overlap.
ghost use Rattle.std.specs.Prelude.{◌≡◌, ℕ, false, ◌≤◌, length, slice_index_or, Ok, Err, IfOk};
ghost use Rattle.fallible_elf.specs.Overlaps.{Claims, ClaimsSection, apart_check};
ghost use Rattle.fallible_elf.specs.declared.fault.ElfFault.{ElfFault};
ghost use Rattle.fallible_iterator.specs.Fault.{Fault};

use crate::fault::{Damage, ElfFault};
use crate::section::Section;
use fallible_iterator::Fault;
use std::alloc::Global;

// Marks the bytes from a place up to an end, unless one of them is marked already. Whether none was.
fn claim(marks: &mut [bool], place: usize, end: usize) -> bool
    requires order { place ≤ end }
    requires within { end ≤ length marks.old }
    ensures { Claims marks.old place end result marks.new }
{
    for at in place..end {
        if marks[at] {
            return false;
        }
        marks[at] = true;
    }
    true
}

// Marks the bytes of a section that lies in the file, unless one of them is marked already. Whether none was.
fn claim_section(marks: &mut [bool], file: &[u8], section: &Section) -> bool
    requires { length marks.old ≡ length file.now }
    ensures claims { ClaimsSection file.now section.now marks.old result marks.new }
    ensures long { length marks.new ≡ length marks.old }
{
    let place = section.offset as usize;
    let size = section.size as usize;
    if file.len() < place || file.len() - place < size {
        return true;
    }
    claim(marks, place, place + size)
}

// Marks the bytes of each section that lies in the file, up to the first one that has a byte which is marked already.
fn claim_each(marks: &mut [bool], file: &[u8], sections: &[Section]) -> Result<(), ElfFault>
    requires long { length marks.old ≡ length file.now }
    requires none { (at : ℕ) → slice_index_or marks.old at false ≡ false }
    ensures { result ≡ apart_check file.now sections.now }
{
    for section in sections {
        if !claim_section(marks, file, section) {
            return Err(ElfFault::at(section.offset as usize, Damage::SetsOverlap));
        }
    }
    Ok(())
}

/// Whether no two of these sections have a byte of the file in common, among those that lie in it. The fault is at the first byte of the first section that shares one with a section before it. It fails with `Memory` if its allocation fails: of two sections or more it marks the bytes, one byte for each of the file.
pub fn check_apart(alloc: Global, file: &[u8], sections: &[Section]) -> Result<(), Fault<ElfFault>>
    ensures ok { IfOk result (λ _. apart_check file.now sections.now ≡ Ok tt) }
    ensures fault { (fault : ElfFault) → result ≡ Err (Fault.Source fault)
        → apart_check file.now sections.now ≡ Err fault }
{
    if sections.len() < 2 {
        return Ok(());
    }
    let mut marks = match vec![in alloc; false; file.len()] {
        Ok(marks) => marks,
        Err(e) => return Err(Fault::Memory(e)),
    };
    match claim_each(&mut marks, file, sections) {
        Ok(()) => Ok(()),
        Err(fault) => Err(Fault::Source(fault)),
    }
}
