//! What takes bytes, and what is known of it where it refuses some.
ghost use Rattle.std.specs.Prelude.{ℕ, List, Option, OnOk, OnErr};
ghost use Rattle.std.specs.Io.KnownBytes.{Appends};
ghost use Rattle.fallible_pg.specs.Putting.{StopsWithin};

use program_io::writing::WriteText;
use std::io;

/// What takes bytes, as every writer does, and every buffer.
pub trait PutBytes: Sized {
    // The bytes that it holds, where they are known.
    ghost written: { Self → Option (List ℕ) };

    // It refuses these bytes, and is left so.
    ghost refuses: { Self → List ℕ → Self → Type 0 };

    /// Puts bytes after those that it holds.
    fn put_bytes(&mut self, bytes: &[u8]) -> io::Result<()>
        ensures whole { OnOk result
            (Appends (written self.old) (written self.new) bytes.now) }
        ensures stops { OnErr result
            (StopsWithin written refuses self.old self.new bytes.now) };
}

impl<W: WriteText> PutBytes for W {
    ghost written = { W.written };

    ghost refuses = { λ _ _ left. W.failed left };

    fn put_bytes(&mut self, bytes: &[u8]) -> io::Result<()> {
        self.write_bytes(bytes)
    }
}
