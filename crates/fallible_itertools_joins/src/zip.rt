// The adapters that pair the items of two sources up to the end of the longer one, or fail where one has more, and the one that pads a source.
ghost use Rattle.std.specs.Prelude.{◌≡◌, Option, Result, None, is_some, unwrap_or};
ghost use Rattle.fallible_iterator.specs.Contract.{parts_as};
ghost use Rattle.fallible_iterator.specs.Laws.Contract.{lawful_parts};
ghost use Rattle.fallible_itertools_joins.specs.Zip.{both_of, hint_greater, only_left, left_of, longest, only_right, right_of, zip_longest_contract, zip_longest_made, zip_longest_parts, zip_eq_contract, zip_eq_made, zip_eq_parts, NextIndex, pad_using_contract, pad_using_made, pad_using_parts};
ghost use Rattle.fallible_itertools_joins.specs.Sides.{fused_contract};
ghost use Rattle.fallible_itertools_joins.specs.Laws.Zip.{lawful_pad_using, lawful_zip_eq, lawful_zip_longest};

use crate::sides::{DrawsBoth, JoinSide, drive_both};
use fallible_iterator::extending::smaller;
use fallible_iterator::{FallibleIterator, Fuse, Turn};

/// An item of each of two sources, or of one alone.
#[derive(Clone, Debug, PartialEq, Eq, Drop)]
pub enum EitherOrBoth<A, B> {
    /// an item of each
    Both(A, B),
    /// an item of the left alone
    Left(A),
    /// an item of the right alone
    Right(B),
}

impl<A, B> EitherOrBoth<A, B> {
    /// Returns whether there is an item of the left.
    pub fn has_left(&self) -> bool
        ensures { result ≡ is_some (left_of self.now) }
    {
        matches!(self, EitherOrBoth::Both(_, _) | EitherOrBoth::Left(_))
    }

    /// Returns whether there is an item of the right.
    pub fn has_right(&self) -> bool
        ensures { result ≡ is_some (right_of self.now) }
    {
        matches!(self, EitherOrBoth::Both(_, _) | EitherOrBoth::Right(_))
    }

    /// Returns whether there is an item of the left alone.
    pub fn is_left(&self) -> bool
        ensures { result ≡ is_some (only_left self.now) }
    {
        matches!(self, EitherOrBoth::Left(_))
    }

    /// Returns whether there is an item of the right alone.
    pub fn is_right(&self) -> bool
        ensures { result ≡ is_some (only_right self.now) }
    {
        matches!(self, EitherOrBoth::Right(_))
    }

    /// Returns whether there is an item of each.
    pub fn is_both(&self) -> bool
        ensures { result ≡ is_some (both_of self.now) }
    {
        matches!(self, EitherOrBoth::Both(_, _))
    }

    /// Returns the item of the left, if there is one.
    pub fn left(self) -> Option<A>
    where
        B: Drop,
        ensures { result ≡ left_of self }
    {
        match self {
            EitherOrBoth::Both(left, _right) => Some(left),
            EitherOrBoth::Left(left) => Some(left),
            EitherOrBoth::Right(_right) => None,
        }
    }

    /// Returns the item of the right, if there is one.
    pub fn right(self) -> Option<B>
    where
        A: Drop,
        ensures { result ≡ right_of self }
    {
        match self {
            EitherOrBoth::Both(_left, right) => Some(right),
            EitherOrBoth::Left(_left) => None,
            EitherOrBoth::Right(right) => Some(right),
        }
    }

    /// Returns both items, if there is one of each.
    pub fn both(self) -> Option<(A, B)>
    where
        A: Drop,
        B: Drop,
        ensures { result ≡ both_of self }
    {
        match self {
            EitherOrBoth::Both(left, right) => Some((left, right)),
            EitherOrBoth::Left(_left) => None,
            EitherOrBoth::Right(_right) => None,
        }
    }

    /// Returns the item of the left, if there is none of the right.
    pub fn just_left(self) -> Option<A>
    where
        A: Drop,
        B: Drop,
        ensures { result ≡ only_left self }
    {
        match self {
            EitherOrBoth::Left(left) => Some(left),
            EitherOrBoth::Both(_left, _right) => None,
            EitherOrBoth::Right(_right) => None,
        }
    }

    /// Returns the item of the right, if there is none of the left.
    pub fn just_right(self) -> Option<B>
    where
        A: Drop,
        B: Drop,
        ensures { result ≡ only_right self }
    {
        match self {
            EitherOrBoth::Right(right) => Some(right),
            EitherOrBoth::Both(_left, _right) => None,
            EitherOrBoth::Left(_left) => None,
        }
    }

    /// Returns the items with left and right exchanged.
    pub fn flip(self) -> EitherOrBoth<B, A>
        ensures { (left_of result ≡ right_of self) × (right_of result ≡ left_of self) }
    {
        match self {
            EitherOrBoth::Both(left, right) => EitherOrBoth::Both(right, left),
            EitherOrBoth::Left(left) => EitherOrBoth::Right(left),
            EitherOrBoth::Right(right) => EitherOrBoth::Left(right),
        }
    }

    /// Returns an item of each. `l` stands for a missing item of the left, and `r` for one of the right.
    pub fn or(self, l: A, r: B) -> (A, B)
    where
        A: Drop,
        B: Drop,
        ensures { result ≡ (unwrap_or (left_of self) l, unwrap_or (right_of self) r) }
    {
        match self {
            EitherOrBoth::Both(left, right) => (left, right),
            EitherOrBoth::Left(left) => (left, r),
            EitherOrBoth::Right(right) => (l, right),
        }
    }
}

/// The items of two sources, each fused, by their positions, up to `Ok(None)` of both. If the left fails, the right isn't drawn. If the right fails, the left's item is buffered for the next call.
#[derive(Clone, Debug, Drop)]
pub struct ZipLongest<T: FallibleIterator, U> {
    pub(crate) left: JoinSide<Fuse<T>, T::Item>,
    pub(crate) right: Fuse<U>,
}

impl<T: FallibleIterator, U: FallibleIterator<Error = T::Error>> ZipLongest<T, U> {
    /// Creates it. It draws nothing.
    #[inline(always)]
    pub fn new(left: Fuse<T>, right: Fuse<U>) -> ZipLongest<T, U>
        ensures { zip_longest_parts result ≡ (left, right, None) }
    {
        ZipLongest {
            left: JoinSide::new(left),
            right,
        }
    }
}

impl<T: FallibleIterator, U: FallibleIterator<Error = T::Error>> FallibleIterator
    for ZipLongest<T, U>
where
    T::Item: Drop,
    U::Item: Drop,
{
    type Item = EitherOrBoth<T::Item, U::Item>;

    type Error = T::Error;

    ghost contract = { parts_as zip_longest_parts
        (zip_longest_contract (fused_contract T.contract) (fused_contract U.contract)) };

    /// Takes the left's buffered item, or draws the left once. Then, unless that failed, it draws the right once. A side that returned `Ok(None)` isn't drawn again. Each fold draws so too.
    fn next(&mut self) -> Result<Option<EitherOrBoth<T::Item, U::Item>>, T::Error> {
        self.next_of_both().0
    }

    fn size_hint(&self) -> (usize, Option<usize>) {
        greater(self.left.hint(), self.right.size_hint())
    }

    fn drive<C, R, K: Turn<C, EitherOrBoth<T::Item, U::Item>, R>>(
        &mut self,
        state: &mut C,
        turn: &K,
    ) -> Result<Option<R>, T::Error> {
        let number = (*self).number();
        drive_both(self, number, state, turn)
    }

    ghost lawful = { lawful_parts zip_longest_made (lawful_zip_longest T.lawful U.lawful) };
}

impl<T: FallibleIterator, U: FallibleIterator<Error = T::Error>> DrawsBoth for ZipLongest<T, U>
where
    T::Item: Drop,
    U::Item: Drop,
{
    type Item = EitherOrBoth<T::Item, U::Item>;

    type Error = T::Error;

    ghost joins = { parts_as zip_longest_parts
        (zip_longest_contract (fused_contract T.contract) (fused_contract U.contract)) };

    #[inline(always)]
    fn next_of_both(
        &mut self,
    ) -> (
        Result<Option<EitherOrBoth<T::Item, U::Item>>, T::Error>,
        bool,
    ) {
        match self.left.give() {
            Ok(Some(x)) => match self.right.next() {
                Ok(Some(y)) => (Ok(Some(EitherOrBoth::Both(x, y))), false),
                Ok(None) => (Ok(Some(EitherOrBoth::Left(x))), true),
                Err(e) => {
                    self.left.held = Some(x);
                    (Err(e), false)
                }
            },
            Ok(None) => match self.right.next() {
                Ok(Some(y)) => (Ok(Some(EitherOrBoth::Right(y))), true),
                Ok(None) => (Ok(None), true),
                Err(e) => (Err(e), true),
            },
            Err(e) => (Err(e), false),
        }
    }

    ghost lawful_joins = { lawful_parts zip_longest_made (lawful_zip_longest T.lawful U.lawful) };
}

// The greater of two hints' bounds.
pub(crate) fn greater(
    a: (usize, Option<usize>),
    b: (usize, Option<usize>),
) -> (usize, Option<usize>)
    ensures { result ≡ hint_greater a b }
{
    let high = match (a.1, b.1) {
        (Some(x), Some(y)) => Some(x.max(y)),
        (Some(_), None) => None,
        (None, _) => None,
    };
    (a.0.max(b.0), high)
}

/// The items of two sources, each fused, as pairs. Where one side returned `Ok(None)` and the other has an item, that item is lost, and what a closure returns is the failure. If the left fails, the right isn't drawn. If the right fails, the left's item is buffered for the next call.
#[derive(Clone, Debug, Drop)]
pub struct ZipEq<T: FallibleIterator, U, F> {
    pub(crate) left: JoinSide<Fuse<T>, T::Item>,
    pub(crate) right: Fuse<U>,
    pub(crate) f: F,
}

impl<T: FallibleIterator, U: FallibleIterator<Error = T::Error>, F> ZipEq<T, U, F> {
    /// Creates it. It draws nothing.
    #[inline(always)]
    pub fn new(left: Fuse<T>, right: Fuse<U>, f: F) -> ZipEq<T, U, F>
        ensures { zip_eq_parts result ≡ (left, right, (None, f)) }
    {
        ZipEq {
            left: JoinSide::new(left),
            right,
            f,
        }
    }
}

impl<
    T: FallibleIterator,
    U: FallibleIterator<Error = T::Error>,
    F: FnMut() -> T::Error,
> FallibleIterator for ZipEq<T, U, F>
where
    T::Item: Drop,
    U::Item: Drop,
{
    type Item = (T::Item, U::Item);

    type Error = T::Error;

    ghost contract = { parts_as zip_eq_parts
        (zip_eq_contract (fused_contract T.contract) (fused_contract U.contract) F.FnMut) };

    /// Takes the left's buffered item, or draws the left once. Then, unless that failed, it draws the right once. A side that returned `Ok(None)` isn't drawn again. It calls the closure once if one side alone has an item. Each fold draws so too.
    fn next(&mut self) -> Result<Option<(T::Item, U::Item)>, T::Error> {
        match self.left.give()? {
            Some(x) => match self.right.next() {
                Ok(Some(y)) => Ok(Some((x, y))),
                Ok(None) => Err((self.f)()),
                Err(e) => {
                    self.left.held = Some(x);
                    Err(e)
                }
            },
            None => match self.right.next() {
                Ok(Some(_)) => Err((self.f)()),
                Ok(None) => Ok(None),
                Err(e) => Err(e),
            },
        }
    }

    fn size_hint(&self) -> (usize, Option<usize>) {
        smaller(self.left.hint(), self.right.size_hint())
    }

    ghost lawful = { lawful_parts zip_eq_made (lawful_zip_eq F.FnMut T.lawful U.lawful) };
}

/// The items of the source, and then what the closure returns for each index below n that no item has. The source is fused. If the closure fails, its failure stands in that item's place.
#[derive(Clone, Debug, Drop)]
pub struct PadUsing<I, F> {
    pub(crate) it: Fuse<I>,
    // the index of the next item, up to n
    pub(crate) next: usize,
    // n
    pub(crate) end: usize,
    pub(crate) f: F,
}

impl<I, F> PadUsing<I, F> {
    /// Creates it. It draws nothing.
    #[inline(always)]
    pub fn new(it: Fuse<I>, n: usize, f: F) -> PadUsing<I, F>
        ensures { pad_using_parts result ≡ (it, (0, n), f) }
    {
        PadUsing {
            it,
            next: 0,
            end: n,
            f,
        }
    }
}

impl<I: FallibleIterator, F: FnMut(usize) -> Result<I::Item, I::Error>> FallibleIterator
    for PadUsing<I, F> {
    type Item = I::Item;

    type Error = I::Error;

    ghost contract = { parts_as pad_using_parts
        (pad_using_contract (fused_contract I.contract) F.FnMut) };

    /// Draws once until the source returned `Ok(None)`. From then on it draws nothing, and calls the closure once until n items were yielded. Each fold draws so too.
    fn next(&mut self) -> Result<Option<I::Item>, I::Error> {
        self.next_of_both().0
    }

    fn size_hint(&self) -> (usize, Option<usize>) {
        let missing = self.end.saturating_sub(self.next);
        greater(self.it.size_hint(), (missing, Some(missing)))
    }

    fn drive<C, R, K: Turn<C, I::Item, R>>(
        &mut self,
        state: &mut C,
        turn: &K,
    ) -> Result<Option<R>, I::Error> {
        let number = (*self).number();
        drive_both(self, number, state, turn)
    }

    ghost lawful = { lawful_parts pad_using_made (lawful_pad_using F.FnMut I.lawful) };
}

impl<I: FallibleIterator, F: FnMut(usize) -> Result<I::Item, I::Error>> DrawsBoth
    for PadUsing<I, F> {
    type Item = I::Item;

    type Error = I::Error;

    ghost joins = { parts_as pad_using_parts
        (pad_using_contract (fused_contract I.contract) F.FnMut) };

    #[inline(always)]
    fn next_of_both(&mut self) -> (Result<Option<I::Item>, I::Error>, bool) {
        match self.it.next() {
            Ok(Some(x)) => {
                let _ = next_index(&mut self.next, self.end);
                (Ok(Some(x)), false)
            }
            Ok(None) => match next_index(&mut self.next, self.end) {
                Some(i) => match (self.f)(i) {
                    Ok(x) => (Ok(Some(x)), true),
                    Err(e) => (Err(e), true),
                },
                None => (Ok(None), true),
            },
            Err(e) => (Err(e), false),
        }
    }

    ghost lawful_joins = { lawful_parts pad_using_made (lawful_pad_using F.FnMut I.lawful) };
}

// The next index, if one is left.
#[inline(always)]
fn next_index(next: &mut usize, end: usize) -> Option<usize>
    ensures { NextIndex (next.old, end) result (next.new, end) }
{
    if *next < end {
        let index = *next;
        *next = index + 1;
        Some(index)
    } else {
        None
    }
}
