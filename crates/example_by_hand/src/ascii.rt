//! A source of one's own over bytes in memory, and callers that count what it yields.
ghost use Rattle.std.specs.Prelude.{◌≡◌, ◌-◌, ◌&&◌, eqb, nat_lt, length, map, Ok};
ghost use Rattle.fallible_iterator.specs.Clauses.{OverList};
ghost use Rattle.fallible_iterator.specs.Laws.Own.{lawful_bounded_with_failures};
ghost use Rattle.fallible_iterator.specs.Laws.Showing.{lawful_listing};
ghost use Rattle.fallible_iterator.specs.Lists.{Lists, counted, filtered, numbered, position_in};
ghost use Rattle.fallible_iterator.specs.Own.{bounded_with_failures};
ghost use Rattle.fallible_iterator.specs.Showing.{listing};
ghost use Rattle.example_by_hand.specs.Ascii.{ascii, shows_ascii};

use fallible_iterator::FallibleIterator;

/// The bytes of a text. At one above 127 `next` fails with it, and the next call goes on after it.
#[derive(Drop)]
pub struct Ascii<'a> {
    bytes: &'a [u8],
    // Where the next byte is.
    place: usize,
}

impl FallibleIterator for Ascii<'_> {
    type Item = u8;

    type Error = u8;

    ghost contract = { bounded_with_failures (λ s. length s.bytes.now - s.place)
        (listing shows_ascii) };

    /// The next byte.
    fn next(&mut self) -> Result<Option<u8>, u8> {
        if self.bytes.len() <= self.place {
            return Ok(None);
        }
        let byte = self.bytes[self.place];
        self.place += 1;
        if byte < 128 {
            Ok(Some(byte))
        } else {
            Err(byte)
        }
    }

    fn size_hint(&self) -> (usize, Option<usize>) {
        (0, None)
    }

    ghost lawful = { lawful_bounded_with_failures (λ s. length s.bytes.now - s.place)
        (lawful_listing shows_ascii) };
}

impl<'a> Ascii<'a> {
    /// The bytes of a text.
    pub fn new(bytes: &'a [u8]) -> Ascii<'a>
        ensures { Lists ⟦<Ascii<'a> as FallibleIterator>⟧.contract.steps result
            (map ascii bytes.now) }
    {
        Ascii { bytes, place: 0 }
    }
}

/// Where the first line of a text ends, or its first byte above 127 if that comes before.
pub fn first_line_end(bytes: &[u8]) -> Result<Option<usize>, u8>
    ensures { result ≡ position_in (λ byte. Ok (eqb byte 10)) (map ascii bytes.now) }
{
    Ascii::new(bytes).position(|byte| Ok(byte == 10))
}

/// How many of the bytes that are left end a line and don't stand first.
pub fn line_ends<'a>(text: Ascii<'a>) -> Result<usize, u8>
    ensures { OverList ⟦<Ascii<'a> as FallibleIterator>⟧.contract.steps text.entry
        (λ l. result ≡ counted
        (filtered (λ p. Ok (eqb p.1 10 && nat_lt 0 p.0)) (numbered 0 l))) }
{
    text.enumerate()
        .filter(|p| Ok(p.1 == 10 && p.0 > 0))
        .count()
}

/// How many items and failures come of the bytes of a text, which std counts.
pub fn answers_in(bytes: &[u8]) -> usize
    ensures { result ≡ length bytes.now }
{
    Ascii::new(bytes).iterator().count()
}
