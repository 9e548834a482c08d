// A writer of many small texts.
ghost use Rattle.std.specs.Prelude.{◌≡◌, ◌≢◌, [], OnOk, OnErr};
ghost use Rattle.std.specs.Io.KnownBytes.{Appends, Keeps, append_known};

use program_io::writing::WriteText;
use std::alloc::Global;
use std::fmt::Display;
use std::io;

// From how many bytes on what is held is handed on.
const CHUNK: usize = 1 << 16;

// Hands on to a writer what is written, many bytes at once. What it still holds is handed on by `hand_on`.
#[derive(Drop)]
pub(crate) struct Chunks<W> {
    writer: W,
    // what was written, and is not handed on yet
    held: Vec<u8>,
}

impl<W> Chunks<W> {
    // It holds nothing.
    pub(crate) fn new(alloc: Global, writer: W) -> Chunks<W>
        ensures writer { result.writer ≡ writer }
        ensures held { result.held.items ≡ [] }
    {
        Chunks {
            writer,
            held: Vec::new(alloc),
        }
    }
}

impl<W: WriteText> Chunks<W> {
    // Hands on what it holds. It fails if the writer does, and so never where it holds nothing.
    pub(crate) fn hand_on(&mut self) -> io::Result<()>
        ensures done { OnOk result ((self.new.held.items ≡ [])
            × Appends (W.written self.old.writer) (W.written self.new.writer) self.old.held.items) }
        ensures failed { OnErr result ((self.old.held.items ≢ []) × W.failed self.new.writer) }
    {
        if self.held.is_empty() {
            return Ok(());
        }
        self.writer.write_bytes(self.held.as_slice())?;
        self.held.clear();
        Ok(())
    }

    // Hands on what it holds where that is many bytes.
    fn make_room(&mut self) -> io::Result<()>
        ensures kept { OnOk result
            (Keeps (append_known (W.written self.old.writer) self.old.held.items)
            (append_known (W.written self.new.writer) self.new.held.items)) }
        ensures failed { OnErr result (W.failed self.new.writer) }
    {
        if self.held.len() < CHUNK {
            return Ok(());
        }
        self.hand_on()
    }
}

impl<W: WriteText> WriteText for Chunks<W> {
    ghost written = { λ s. append_known (W.written s.writer) s.held.items };

    ghost failed = { λ s. W.failed s.writer };

    // Hands on what it holds, and then the text.
    fn write_text<D: Display + Drop>(&mut self, text: D) -> io::Result<()> {
        self.hand_on()?;
        self.writer.write_text(text)
    }

    // Holds the bytes. It hands them on where there is no memory for them.
    fn write_bytes(&mut self, bytes: &[u8]) -> io::Result<()> {
        self.make_room()?;
        if self.held.extend_from_slice(bytes).is_ok() {
            return Ok(());
        }
        self.hand_on()?;
        self.writer.write_bytes(bytes)
    }
}
