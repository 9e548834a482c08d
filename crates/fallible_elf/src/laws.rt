//! What the words of the clauses come to, as functions whose body is empty.
ghost use Rattle.std.specs.Prelude.{◌≡◌, ℕ, ◌+◌, ◌*◌, ◌<◌, List, Result, Ok, length, slice_index_or};
ghost use Rattle.fallible_elf.specs.Headers.{table_of};
ghost use Rattle.fallible_elf.specs.Sections.{header_at, headers_of};
ghost use Rattle.fallible_elf.specs.declared.fault.ElfFault.{ElfFault};
ghost use Rattle.fallible_elf.specs.declared.header.Table.{Table};
ghost use Rattle.fallible_elf.specs.declared.section.Section.{Section};

/// If a file has a table, there are as many headers as its count says, and the header with the number n stands 64 * n bytes after the first one.
pub fn law_headers()
    ensures { (bytes : List ℕ) (table : Table) → table_of bytes ≡ Ok table
        → (length (headers_of bytes) ≡ table.count)
        × ((n : ℕ) (none : Result Section ElfFault) → n < table.count
        → slice_index_or (headers_of bytes) n none
        ≡ header_at table.names table.names_size bytes (table.place + 64 * n)) }
{}
