//! The messages of a reader.
ghost use Rattle.std.proofs.Common.{refl};
ghost use Rattle.std.specs.Prelude.{◌≡◌, ◌^◌, ◌≤◌, ℕ, List, length, Some};
ghost use Rattle.fallible_iterator.specs.Contract.{around};
ghost use Rattle.fallible_iterator.specs.Laws.Contract.{lawful_around};
ghost use Rattle.fallible_iterator.specs.Making.{ListsMade};
ghost use Rattle.program_io.specs.Bytes.{NoReadFails};
ghost use Rattle.fallible_pg.specs.Laws.Messages.{lawful_messages};
ghost use Rattle.fallible_pg.specs.Listed.{messages_of, HasBytes, BecomesMemory};
ghost use Rattle.fallible_pg.specs.Reading.{messages_parts, place_of};
ghost use Rattle.fallible_pg.specs.Traces.{messages_contract};

use crate::fault::PgFault;
use crate::message::Message;
use crate::reading::{Broken, ReadMessage};
use fallible_iterator::FallibleIterator;
use std::alloc::Global;

/// The messages of a reader, as a server sends them: each is its tag, its length and its body.
///
/// A draw reads the bytes of one message, one at a time or by what stands in the reader's buffer, and none of the next. It takes room for what has come alone, whatever length is stated. They end where the bytes end between two messages. Where the bytes end within one it fails with `Damaged` and `Cut`, at a length that no message has with `Damaged` and `Length`, and with `Read` and `Memory`. After 2 ^ 63 bytes it fails with `Read`. After the end and after a fault each call returns `Ok(None)` and reads no more.
///
/// It states no bound, so it is drained through `take`.
#[derive(Drop)]
pub struct Messages<R> {
    alloc: Global,
    reader: R,
    // how many bytes were read; none after the end and after a fault
    place: Option<u64>,
}

// After so many bytes nothing more is read.
const MAX_PLACE: u64 = 0x8000_0000_0000_0000;

impl<R: ReadMessage> Messages<R> {
    /// The messages of this reader. It reads nothing.
    pub fn new(alloc: Global, reader: R) -> Messages<R>
        ensures parts { messages_parts result ≡ (reader, Some 0) }
        ensures lists { (bytes : List ℕ) → NoReadFails R.stays → R.left reader ≡ Some bytes
            → length bytes ≤ 2 ^ 63
            → ListsMade HasBytes
            (around messages_parts (messages_contract R.left R.stays R.no_room)).steps
            BecomesMemory result (messages_of 0 bytes) }
    {
        Messages {
            alloc,
            reader,
            place: Some(0),
        }
    }

    // How many bytes were read; 0 after the end and after a fault.
    pub(crate) fn place(&self) -> u64
        ensures { result ≡ place_of (messages_parts self.now).1 }
    {
        self.place.unwrap_or(0)
    }
}

impl<R: ReadMessage> FallibleIterator for Messages<R> {
    type Item = Message;

    type Error = PgFault;

    ghost contract = { around messages_parts (messages_contract R.left R.stays R.no_room) };

    fn next(&mut self) -> Result<Option<Message>, PgFault> {
        let Some(place) = self.place.take() else {
            return Ok(None);
        };
        if place > MAX_PLACE {
            return Err(PgFault::Read);
        }
        match self.reader.read_message(self.alloc) {
            Ok(Some(message)) => {
                self.place = Some(place + message.bytes().len() as u64);
                Ok(Some(message))
            }
            Ok(None) => Ok(None),
            Err(Broken::Damaged(damage)) => Err(PgFault::Damaged(place, damage)),
            Err(Broken::Read) => Err(PgFault::Read),
            Err(Broken::Memory) => Err(PgFault::Memory),
        }
    }

    fn size_hint(&self) -> (usize, Option<usize>) {
        (0, None)
    }

    ghost lawful = { lawful_around
        (record { put = λ s p. record s { reader = p.0; place = p.1 }; has = λ s p. refl })
        (lawful_messages R.left R.stays R.no_room) };
}
