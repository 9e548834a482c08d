//! Buffers for the text of a row.
ghost use Rattle.std.specs.Prelude.{◌≡◌, ◌+◌, ◌<◌, [], Some, true, false, length};
ghost use Rattle.std.specs.Vec.{vec_capacity, vec_len};
ghost use Rattle.fallible_pg.specs.Messages.{message_bytes};
ghost use Rattle.fallible_pg.specs.Putting.{LacksRoom};
ghost use Rattle.fallible_pg.specs.Text.{form_of, row_text};

use crate::putting::PutBytes;
use crate::rows::Row;
use crate::text::{Format, put_row};
use std::alloc::Global;
use std::io;

/// A buffer for the text of a row.
pub trait HoldText: PutBytes {
    /// Lets go what it holds.
    fn let_go(&mut self)
        ensures { Self.written self.new ≡ Some [] };

    /// The text that it holds.
    fn held(&self) -> &[u8]
        ensures { Self.written self.now ≡ Some result.now };

    /// Puts the text of a row, as `write_row` writes it, in the place of what it holds. Whether there was room.
    final fn hold_row(&mut self, row: &Row, format: Format<'_>) -> bool
        ensures text { result ≡ true → Self.written self.new
            ≡ Some (row_text (form_of format.entry) (message_bytes row.now.message)) }
        ensures no_room { result ≡ false → LacksRoom Self.written Self.refuses
            (row_text (form_of format.entry) (message_bytes row.now.message)) }
    {
        self.let_go();
        put_row(row, format, self).is_ok()
    }
}

/// A buffer in memory.
#[derive(Debug, Drop)]
pub struct RowText {
    bytes: Vec<u8>,
}

impl RowText {
    /// A buffer that holds nothing. It allocates nothing.
    pub fn new(alloc: Global) -> RowText {
        RowText {
            bytes: Vec::new(alloc),
        }
    }
}

impl PutBytes for RowText {
    ghost written = { λ s. Some s.bytes.items };

    // It has no room for them.
    ghost refuses = { λ s bytes _. vec_capacity s.bytes < vec_len s.bytes + length bytes };

    fn put_bytes(&mut self, bytes: &[u8]) -> io::Result<()> {
        self.bytes.extend_from_slice(bytes)?;
        Ok(())
    }
}

impl HoldText for RowText {
    fn let_go(&mut self) {
        self.bytes.clear();
    }

    fn held(&self) -> &[u8] {
        self.bytes.as_slice()
    }
}
