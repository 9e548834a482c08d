//! The bytes of a text, each with its place.
ghost use Rattle.fallible_iterator.specs.Laws.Showing.{lawful_listing};
ghost use Rattle.fallible_iterator.specs.Lists.{Lists, items, numbered};
ghost use Rattle.fallible_iterator.specs.Showing.{listing};
ghost use Rattle.fallible_json.specs.Bytes.{shows_placed};

use fallible_iterator::FallibleIterator;
use std::convert::Infallible;

/// The bytes of a text, each after its place, which is how many come before it. It never fails.
#[derive(Drop)]
pub struct PlacedBytes<'a> {
    text: &'a [u8],
    // Where the next byte is.
    place: usize,
}

impl FallibleIterator for PlacedBytes<'_> {
    type Item = (usize, u8);

    type Error = Infallible;

    ghost contract = { listing shows_placed };

    /// Returns the next byte and its place.
    fn next(&mut self) -> Result<Option<(usize, u8)>, Infallible> {
        if self.text.len() <= self.place {
            return Ok(None);
        }
        let place = self.place;
        let byte = self.text[place];
        self.place += 1;
        Ok(Some((place, byte)))
    }

    fn size_hint(&self) -> (usize, Option<usize>) {
        (0, None)
    }

    ghost lawful = { lawful_listing shows_placed };
}

impl<'a> PlacedBytes<'a> {
    /// The bytes of a text.
    pub fn new(text: &'a [u8]) -> PlacedBytes<'a>
        ensures { Lists ⟦<PlacedBytes<'a> as FallibleIterator>⟧.contract.steps result
            (numbered 0 (items text.now)) }
    {
        PlacedBytes { text, place: 0 }
    }
}
