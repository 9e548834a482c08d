//! A source of one's own over any reader.
ghost use Rattle.std.specs.Prelude.{◌≡◌, ℕ, IsOk, List, Ok, Some, nat_eq};
ghost use Rattle.std.proofs.Common.{rules};
ghost use Rattle.fallible_iterator.specs.Contract.{unbounded_contract};
ghost use Rattle.fallible_iterator.specs.Lists.{counted, filtered, items, taken};
ghost use Rattle.fallible_iterator.specs.Laws.BoundsRuns.{lawful_unbounded};
ghost use Rattle.example_by_hand.specs.Reading.{DrawsByte};

use fallible_iterator::FallibleIterator;
use std::io::Read;

/// A read failed.
#[derive(Debug, Drop, PartialEq)]
pub struct ReadFailed;

/// The bytes of a reader, one read for each draw: that a failed read is one too is tested and no part of the contract. It states no bound, so it is drained through `take`.
#[derive(Drop)]
pub struct Bytes<R> {
    /// What is read.
    pub reader: R,
}

impl<R: Read + Drop> FallibleIterator for Bytes<R> {
    type Item = u8;

    type Error = ReadFailed;

    ghost contract = { unbounded_contract (λ s r t. DrawsByte R.remaining s.reader r t.reader) };

    /// Reads one byte. An interrupted read fails too.
    fn next(&mut self) -> Result<Option<u8>, ReadFailed> {
        let mut byte = [0u8; 1];
        match self.reader.read(&mut byte) {
            Ok(0) => Ok(None),
            Ok(_) => Ok(Some(byte[0])),
            Err(_) => Err(ReadFailed),
        }
    }

    fn size_hint(&self) -> (usize, Option<usize>) {
        (0, None)
    }

    ghost lawful = { Prim.search (rules, lawful_unbounded) };
}

/// How many of the first three bytes are newlines. The clause says it if the reader's bytes are known and the result is no failure. No clause says when it fails.
pub fn newlines_of_three<R: Read + Drop>(reader: R) -> Result<usize, ReadFailed>
where
    ensures { (bytes : List ℕ) → R.remaining reader ≡ Some bytes
        → IsOk result → result ≡ counted
        (filtered (λ x. Ok (nat_eq x 10)) (taken 3 (items bytes))) }
{
    Bytes { reader }
        .take(3)
        .filter(|byte| Ok(*byte == b'\n'))
        .count()
}
