//! An adapter of one's own that draws its source again after a failure.
ghost use Rattle.std.specs.Prelude.{◌≡◌, List, Result};
ghost use Rattle.std.proofs.Common.{refl};
ghost use Rattle.fallible_iterator.specs.Contract.{parts_as};
ghost use Rattle.fallible_iterator.specs.Gathering.{gathering_by};
ghost use Rattle.fallible_iterator.specs.Laws.Contract.{lawful_parts};
ghost use Rattle.fallible_iterator.specs.Laws.Gathering.{lawful_gathering_by};
ghost use Rattle.fallible_iterator.specs.Lists.{Lists};
ghost use Rattle.example_by_hand.specs.Retried.{MakesRetried, retried};

use fallible_iterator::FallibleIterator;

/// What a source yields that is drawn again after a failure, up to a number of times for each call.
#[derive(Drop)]
pub struct Retried<I> {
    it: I,
    retries: u32,
}

impl<I: FallibleIterator> FallibleIterator for Retried<I>
where
    I::Error: Drop,
{
    type Item = I::Item;

    type Error = I::Error;

    ghost contract = { parts_as (λ s. (s.it, s.retries)) (gathering_by MakesRetried I.contract) };

    /// Draws up to an item, an `Ok(None)` or the last failure that may come.
    fn next(&mut self) -> Result<Option<I::Item>, I::Error> {
        let mut left = self.retries;
        while left > 0 {
            match self.it.next() {
                Ok(answer) => return Ok(answer),
                Err(_) => left -= 1,
            }
        }
        self.it.next()
    }

    fn size_hint(&self) -> (usize, Option<usize>) {
        (0, None)
    }

    ghost lawful = { lawful_parts
        (record { make = λ p. record { it = p.0; retries = p.1 }; made = λ s. refl; has = λ p. refl })
        (lawful_gathering_by MakesRetried I.lawful) };
}

impl<I: FallibleIterator> Retried<I>
where
    I::Error: Drop,
{
    /// What an iterator yields that is drawn again after a failure, up to so many times for each call.
    pub fn new(it: I, retries: u32) -> Retried<I>
        ensures { (l : List (Result I.Item I.Error)) → Lists I.contract.steps it l
            → Lists ⟦<Retried<I> as FallibleIterator>⟧.contract.steps result (retried retries l) }
    {
        Retried { it, retries }
    }
}
