// The adapter that draws one source up to its first `Ok(None)`, and then another.
ghost use Rattle.std.specs.Prelude.{◌≡◌, Result, Option};
ghost use Rattle.fallible_contract.specs.Contract.{parts_as};
ghost use Rattle.fallible_contract.specs.Ends.{ends_parts_as};
ghost use Rattle.fallible_contract.specs.Laws.Contract.{lawful_parts};
ghost use Rattle.fallible_contract.specs.Laws.Ends.{lawful_ends_parts};
ghost use Rattle.fallible_core.specs.Joining.Chain.{chain_contract, chain_ends, chain_made, chain_parts};
ghost use Rattle.fallible_core.specs.Laws.Joining.Chain.{lawful_chain, lawful_ends_chain};

use crate::traits::FallibleIterator;
use crate::traits::double_ended::DoubleEndedFallibleIterator;
use fallible_contract::folds::Turn;
use fallible_contract::goals::Goal;
use fallible_contract::hints::sum;

// Which sides of a `Chain` are still drawn: `SecondAlone` once a draw from the front of the first returned `Ok(None)`, and `FirstAlone` once a draw from the back of the second did.
#[derive(Clone, Debug, Drop)]
pub(crate) enum StillDrawn {
    Both,
    FirstAlone,
    SecondAlone,
}

/// What the first source yields up to its first `Ok(None)`, and then what the second yields. A failure changes no side.
#[derive(Clone, Debug, Drop)]
pub struct Chain<T, U> {
    pub(crate) first: T,
    pub(crate) second: U,
    pub(crate) still_drawn: StillDrawn,
}

impl<T: FallibleIterator, U: FallibleIterator<Item = T::Item, Error = T::Error>> FallibleIterator
    for Chain<T, U> {
    type Item = T::Item;

    type Error = T::Error;

    ghost contract = { parts_as chain_parts (chain_contract T.contract U.contract) };

    /// While both sides are drawn it draws the first once. If that is its first `Ok(None)`, it draws the second once in the same call, which alone is drawn from then on. A failure changes no side. If one side alone is drawn, it draws that side once.
    fn next(&mut self) -> Result<Option<T::Item>, T::Error> {
        if !matches!(self.still_drawn, StillDrawn::SecondAlone) {
            match self.first.next() {
                Ok(None) => {}
                Ok(some @ Some(_)) => return Ok(some),
                Err(e) => return Err(e),
            }
            match self.still_drawn {
                StillDrawn::FirstAlone => return Ok(None),
                _ => self.still_drawn = StillDrawn::SecondAlone,
            }
        }
        self.second.next()
    }

    fn size_hint(&self) -> (usize, Option<usize>) {
        match self.still_drawn {
            StillDrawn::Both => sum(self.first.size_hint(), self.second.size_hint()),
            StillDrawn::FirstAlone => self.first.size_hint(),
            StillDrawn::SecondAlone => self.second.size_hint(),
        }
    }

    /// The first's fold, and after its `Ok(None)`, in the same call, the second's; if one side alone is drawn, that side's.
    fn drive<C, R, K: Turn<C, T::Item, R>>(
        &mut self,
        state: &mut C,
        turn: &K,
    ) -> Result<Option<R>, T::Error> {
        let Chain {
            first,
            second,
            still_drawn,
        } = self;
        match still_drawn {
            StillDrawn::SecondAlone => second.drive(state, turn),
            _ => match first.drive(state, turn) {
                Ok(Some(stop)) => Ok(Some(stop)),
                Ok(None) => match still_drawn {
                    StillDrawn::FirstAlone => Ok(None),
                    _ => {
                        *still_drawn = StillDrawn::SecondAlone;
                        second.drive(state, turn)
                    }
                },
                Err(e) => Err(e),
            },
        }
    }

    /// What the first makes of the goal, and after its `Ok(None)`, in the same call, what the second makes of it; if one side alone is drawn, what that side does.
    fn drive_to(&mut self, goal: &mut Goal<T::Item>) -> Result<Option<T::Item>, T::Error>
    where
        T::Item: Drop,
    {
        let Chain {
            first,
            second,
            still_drawn,
        } = self;
        match still_drawn {
            StillDrawn::SecondAlone => second.drive_to(goal),
            _ => match first.drive_to(goal) {
                Ok(Some(x)) => Ok(Some(x)),
                Ok(None) => match still_drawn {
                    StillDrawn::FirstAlone => Ok(None),
                    _ => {
                        *still_drawn = StillDrawn::SecondAlone;
                        second.drive_to(goal)
                    }
                },
                Err(e) => Err(e),
            },
        }
    }

    ghost lawful = { lawful_parts chain_made (lawful_chain T.lawful U.lawful) };
}

impl<
    T: DoubleEndedFallibleIterator,
    U: DoubleEndedFallibleIterator<Item = T::Item, Error = T::Error>,
> DoubleEndedFallibleIterator for Chain<T, U> {
    ghost ends = { ends_parts_as chain_parts (chain_ends T.contract T.ends U.contract U.ends) };

    /// While both sides are drawn it draws the second once from the back. If that is its first `Ok(None)`, it draws the first once from the back in the same call, which alone is drawn from then on, from either end. A failure changes no side. If one side alone is drawn, it draws that side once from the back.
    fn next_back(&mut self) -> Result<Option<T::Item>, T::Error> {
        if !matches!(self.still_drawn, StillDrawn::FirstAlone) {
            match self.second.next_back() {
                Ok(None) => {}
                Ok(some @ Some(_)) => return Ok(some),
                Err(e) => return Err(e),
            }
            match self.still_drawn {
                StillDrawn::SecondAlone => return Ok(None),
                _ => self.still_drawn = StillDrawn::FirstAlone,
            }
        }
        self.first.next_back()
    }

    /// The second's fold from the back, and at its end, in the same call, the first's; where one side alone is drawn, that side's.
    fn drive_back<C, R, K: Turn<C, T::Item, R>>(
        &mut self,
        state: &mut C,
        turn: &K,
    ) -> Result<Option<R>, T::Error> {
        let Chain {
            first,
            second,
            still_drawn,
        } = self;
        match still_drawn {
            StillDrawn::FirstAlone => first.drive_back(state, turn),
            _ => match second.drive_back(state, turn) {
                Ok(Some(stop)) => Ok(Some(stop)),
                Ok(None) => match still_drawn {
                    StillDrawn::SecondAlone => Ok(None),
                    _ => {
                        *still_drawn = StillDrawn::FirstAlone;
                        first.drive_back(state, turn)
                    }
                },
                Err(e) => Err(e),
            },
        }
    }

    ghost lawful_ends = { lawful_ends_parts chain_made
        (lawful_ends_chain T.lawful_ends U.lawful_ends) };
}
