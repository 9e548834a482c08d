//! A text whose second clone fails, the clones of all texts with the same count taken together.
use std::alloc::AllocError;
use std::cell::Cell;

/// A text and the count of its clones.
#[derive(Debug, Drop)]
pub struct Text<'a> {
    /// what it says
    pub text: &'a str,
    /// how many clones were made of the texts that share it
    pub clones: &'a Cell<u32>,
}

impl<'a> Clone for Text<'a> {
    fn clone(&self) -> Result<Text<'a>, AllocError> {
        self.clones.set(self.clones.get().wrapping_add(1));
        if self.clones.get() == 2 {
            return Err(AllocError);
        }
        Ok(Text {
            text: self.text,
            clones: self.clones,
        })
    }
}
