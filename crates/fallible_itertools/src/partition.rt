//! Items and failures apart, values of two kinds to two collections, and what came before the first failure.
ghost use Rattle.std.specs.Prelude.{◌≡◌, ◌⊎◌};
ghost use Rattle.fallible_iterator.specs.Contract.{parts_as};
ghost use Rattle.fallible_iterator.specs.Laws.Contract.{lawful_parts};
ghost use Rattle.fallible_itertools.specs.Partition.{EitherRefused, MadeOfEithers, parted_contract, parted_made, parted_source, with_failure_of, without_source};
ghost use Rattle.fallible_itertools.specs.Laws.Partition.{lawful_parted};

use fallible_iterator::{Collect, FallibleIterator, Fault};
use std::alloc::{AllocError, Global};
use std::convert::Infallible;

/// Each item of the source as an `Either::Left`, and each failure as an `Either::Right`. It never fails.
#[derive(Drop)]
pub struct Parted<I> {
    /// the source
    pub it: I,
}

impl<I: FallibleIterator> FallibleIterator for Parted<I> {
    type Item = Either<I::Item, I::Error>;

    type Error = Infallible;

    ghost contract = { parts_as parted_source (parted_contract I.contract) };

    /// Draws once.
    fn next(&mut self) -> Result<Option<Either<I::Item, I::Error>>, Infallible> {
        match self.it.next() {
            Ok(Some(x)) => Ok(Some(Either::Left(x))),
            Ok(None) => Ok(None),
            Err(e) => Ok(Some(Either::Right(e))),
        }
    }

    fn size_hint(&self) -> (usize, Option<usize>) {
        (0, None)
    }

    ghost lawful = { lawful_parts parted_made (lawful_parted I.lawful) };
}

/// Returns the collection, or the allocation failure; the source never fails.
pub fn without_fault<C>(collected: Result<C, Fault<Infallible>>) -> Result<C, AllocError>
    ensures { collected ≡ without_source result }
{
    match collected {
        Ok(made) => Ok(made),
        Err(Fault::Memory(refused)) => Err(refused),
        Err(Fault::Source(never)) => match never {},
    }
}

/// A value of the left or of the right.
#[derive(Clone, Copy, Debug, PartialEq, Eq, Drop)]
pub enum Either<A, B> {
    /// a value of the left
    Left(A),
    /// a value of the right
    Right(B),
}

// The first collection takes the values of each `Left`, and the second those of each `Right`.
impl<A: Drop, B: Drop, L: Collect<A>, R: Collect<B>> Collect<Either<A, B>> for (L, R) {
    ghost made = { λ items c. MadeOfEithers L.made R.made items c };

    ghost empty_refuses = { L.empty_refuses ⊎ R.empty_refuses };

    ghost push_refuses = { λ c x. EitherRefused L.push_refuses R.push_refuses c x };

    fn empty(alloc: Global) -> Result<(L, R), AllocError> {
        let left = L::empty(alloc)?;
        let right = R::empty(alloc)?;
        Ok((left, right))
    }

    fn push_one(&mut self, item: Either<A, B>) -> Result<(), AllocError> {
        match item {
            Either::Left(x) => self.0.push_one(x),
            Either::Right(y) => self.1.push_one(y),
        }
    }
}

/// Returns the collection beside the failure that the fold met, if it met one.
pub fn with_failure<C: Drop, E>(
    answer: Result<Option<AllocError>, E>,
    made: C,
) -> Result<(C, Option<E>), AllocError>
    ensures { result ≡ with_failure_of answer made }
{
    match answer {
        Ok(None) => Ok((made, None)),
        Ok(Some(refused)) => Err(refused),
        Err(e) => Ok((made, Some(e))),
    }
}
