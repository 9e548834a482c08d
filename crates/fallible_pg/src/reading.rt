//! Reading a message.
ghost use Rattle.std.specs.Prelude.{◌≡◌, ℕ, List, vec_items, ⊤};
ghost use Rattle.fallible_pg.specs.Sizes.{is_length};
ghost use Rattle.fallible_pg.specs.Reading.{ReadsMessage, ReadsTag, broken_by, tag_bytes};

use crate::fault::Damage;
use crate::message::Message;
use crate::numbers::u32_at;
use program_io::reading::{ReadByte, Unread, read_up_to};
use std::alloc::Global;

/// Why a message wasn't read.
#[derive(Clone, Copy, Debug, PartialEq, Eq)]
pub enum Broken {
    /// What came is damaged.
    Damaged(Damage),
    /// A read failed.
    Read,
    /// An allocation failed.
    Memory,
}

// The greatest length that a message may state.
const MAX_LENGTH: u32 = 0x3fff_ffff;

// What reading broke off with, where fewer bytes came.
fn broken_by(why: Unread) -> Broken
    ensures { result ≡ broken_by why }
{
    match why {
        Unread::End => Broken::Damaged(Damage::Cut),
        Unread::Failed => Broken::Read,
        Unread::Memory => Broken::Memory,
    }
}

// Whether a message may state this length, which counts its own four bytes and the body.
fn is_length(n: u32) -> bool
    ensures { result ≡ is_length n }
{
    4 <= n && n <= MAX_LENGTH
}

/// Something that yields messages, as every reader does.
pub trait ReadMessage: ReadByte {
    // It had no room for these bytes, the first of a message.
    ghost no_room: { List ℕ → Type 0 };

    /// One message, or `None` at the end. No byte after it is read, and room is taken for what has come alone, whatever length is stated. It fails if what came is damaged, if a read fails, and if an allocation does.
    fn read_message(&mut self, alloc: Global) -> Result<Option<Message>, Broken>
        ensures { ReadsMessage Self.left Self.stays no_room self.old result self.new };
}

impl<R: ReadByte> ReadMessage for R {
    // Std says of no request that it is granted.
    ghost no_room = { λ _. ⊤ };

    fn read_message(&mut self, alloc: Global) -> Result<Option<Message>, Broken> {
        read_message(alloc, self)
    }
}

// Reads the tag of a message, if there is one.
fn read_tag<R: ReadByte>(alloc: Global, reader: &mut R) -> Result<Option<Vec<u8>>, Broken>
    ensures { ReadsTag R.left R.stays reader.old (tag_bytes result) reader.new }
{
    let mut bytes = Vec::new(alloc);
    match reader.read_byte() {
        Ok(Some(tag)) => match bytes.push(tag) {
            Ok(()) => Ok(Some(bytes)),
            // No memory: a push fails only if an allocation does.
            Err(_) => Err(Broken::Memory),
        },
        Ok(None) => Ok(None),
        Err(_) => Err(Broken::Read),
    }
}

// Reads one message, if there is one, and no byte after it.
fn read_message<R: ReadByte>(alloc: Global, reader: &mut R) -> Result<Option<Message>, Broken>
    ensures { ReadsMessage R.left R.stays (λ _. ⊤) reader.old result reader.new }
{
    let mut bytes = match read_tag(alloc, reader) {
        Ok(Some(bytes)) => bytes,
        Ok(None) => return Ok(None),
        Err(why) => return Err(why),
    };
    match read_up_to(reader, &mut bytes, 5) {
        Ok(()) => {}
        Err(why) => return Err(broken_by(why)),
    }
    let stated = u32_at(bytes.as_slice(), 1);
    if !is_length(stated) {
        return Err(Broken::Damaged(Damage::Length(stated)));
    }
    match read_up_to(reader, &mut bytes, stated as usize + 1) {
        Ok(()) => Ok(Some(Message::new(bytes))),
        Err(why) => Err(broken_by(why)),
    }
}
