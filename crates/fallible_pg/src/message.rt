//! A message.
ghost use Rattle.std.specs.Prelude.{◌≡◌, ◌≤◌, length, drop, slice_index, vec_items};
ghost use Rattle.fallible_pg.specs.Sizes.{IsMessage};

/// A message of a server: its tag, its length of four bytes, which counts these and the body, and the body.
#[derive(Debug, Drop)]
pub struct Message {
    bytes: Vec<u8>,
    ghost long: { 5 ≤ length bytes.items },
    ghost whole: { IsMessage bytes.items },
}

impl Message {
    // The message that bytes are.
    pub(crate) fn new(bytes: Vec<u8>) -> Message
        requires long { 5 ≤ length (vec_items bytes) }
        requires whole { IsMessage (vec_items bytes) }
        ensures { result.bytes.items ≡ vec_items bytes }
    {
        Message { bytes }
    }

    /// All its bytes: the tag, the four of the length and the body.
    pub fn bytes(&self) -> &[u8]
        ensures { result.now ≡ self.now.bytes.items }
    {
        self.bytes.as_slice()
    }

    /// Which kind of message it is.
    pub fn tag(&self) -> u8
        ensures { result ≡ slice_index self.now.bytes.items 0 }
    {
        self.bytes()[0]
    }

    /// What follows the length.
    pub fn body(&self) -> &[u8]
        ensures { result.now ≡ drop 5 self.now.bytes.items }
    {
        &self.bytes()[5..]
    }
}
