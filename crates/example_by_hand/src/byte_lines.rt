//! The lines of bytes, each a vector: an iterator of one's own of which only its source's bounds are said.
ghost use Rattle.std.specs.Prelude.{◌^◌, ◌-◌};
ghost use Rattle.fallible_iterator.specs.Contract.{AtMost};
ghost use Rattle.fallible_iterator.specs.Laws.Own.{lawful_drawing_from};
ghost use Rattle.fallible_iterator.specs.Own.{drawing_from};

use fallible_iterator::FallibleIterator;
use std::alloc::{AllocError, Global};

/// The lines of bytes, without their newlines. Which bytes they have is tested, and no part of the contract.
///
/// A draw takes the bytes up to a newline, or to the end. A failure of the source or an allocation failure takes the place of the line, which is lost.
///
/// Requires that the source is finite.
#[derive(Drop)]
pub struct ByteLines<I> {
    /// What is drawn from.
    pub bytes: I,
    /// What a line asks for memory.
    pub alloc: Global,
}

impl<I: FallibleIterator<Item = u8>> FallibleIterator for ByteLines<I>
where
    I::Error: From<AllocError>,
{
    type Item = Vec<u8>;

    type Error = I::Error;

    ghost contract = { drawing_from (λ s. s.bytes) I.contract };

    /// Returns the next line.
    fn next(&mut self) -> Result<Option<Vec<u8>>, I::Error> {
        let Some(first) = self.bytes.draw()? else {
            return Ok(None);
        };
        let mut line = Vec::new(self.alloc);
        if first == b'\n' {
            return Ok(Some(line));
        }
        line.extend_from_slice(&[first])?;
        self.bytes.find(|byte| {
            if *byte == b'\n' {
                return Ok(true);
            }
            line.extend_from_slice(&[*byte])?;
            Ok(false)
        })?;
        Ok(Some(line))
    }

    fn size_hint(&self) -> (usize, Option<usize>) {
        (0, None)
    }

    ghost lawful = { lawful_drawing_from (λ s. s.bytes) I.lawful };
}

/// How many lines have more than 80 bytes, or the first failure.
///
/// Requires that `next` may be called on the source, and that it yields at most 2 ^ 64 - 1 bytes.
pub fn long_lines<I: FallibleIterator<Item = u8>>(
    alloc: Global,
    bytes: I,
) -> Result<usize, I::Error>
where
    I::Error: From<AllocError>,
    requires can_next { I.contract.can_next bytes }
    requires fits { AtMost I.contract bytes (2 ^ 64 - 1) }
{
    ByteLines { bytes, alloc }
        .filter(|line| Ok(line.len() > 80))
        .count()
}
