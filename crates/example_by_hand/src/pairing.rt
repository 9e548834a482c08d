//! An adapter of one's own that draws two items for one.
ghost use Rattle.std.specs.Prelude.{◌≡◌, ◌↔◌, ℕ, ◌+◌, ◌-◌, ◌%◌, ◌^◌, ◌<◌, List, Option, Result, Bool, Ok};
ghost use Rattle.std.specs.Borrow.{Bor};
ghost use Rattle.std.proofs.Common.{refl};
ghost use Rattle.fallible_iterator.specs.Contract.{AtMost, parts_as};
ghost use Rattle.fallible_iterator.specs.Filtering.Filter.{FilterTrace, filter_parts};
ghost use Rattle.fallible_iterator.specs.Laws.Contract.{lawful_parts};
ghost use Rattle.fallible_iterator.specs.Laws.Own.{lawful_gathering};
ghost use Rattle.fallible_iterator.specs.Lists.{Lists, counted, folded, mapped};
ghost use Rattle.fallible_iterator.specs.OneToOne.Map.{MapTrace, map_parts};
ghost use Rattle.fallible_iterator.specs.Own.{GathersAll, gathering};
ghost use Rattle.fallible_iterator.specs.Traces.{Answered, Run};
ghost use Rattle.example_by_hand.specs.Pairs.{MakesPair, paired};

use fallible_iterator::laws::law_headline;
use fallible_iterator::{FallibleIterator, Filter, Map};

/// The items two by two. The first of two is dropped if an `Ok(None)` or a failure comes after it.
#[derive(Drop)]
pub struct Pairs<I> {
    /// What is drawn from.
    pub it: I,
}

impl<I: FallibleIterator> FallibleIterator for Pairs<I>
where
    I::Item: Drop,
{
    type Item = (I::Item, I::Item);

    type Error = I::Error;

    ghost contract = { parts_as (λ s. s.it) (gathering MakesPair I.contract) };

    /// Draws once, and again after an item.
    fn next(&mut self) -> Result<Option<(I::Item, I::Item)>, I::Error> {
        let Some(first) = self.it.next()? else {
            return Ok(None);
        };
        let Some(second) = self.it.next()? else {
            return Ok(None);
        };
        Ok(Some((first, second)))
    }

    fn size_hint(&self) -> (usize, Option<usize>) {
        (0, None)
    }

    ghost lawful = { lawful_parts
        (record { make = λ p. record { it = p }; made = λ s. refl; has = λ p. refl })
        (lawful_gathering MakesPair I.lawful) };
}

impl<I: FallibleIterator> Pairs<I>
where
    I::Item: Drop,
{
    /// The items of an iterator two by two.
    pub fn new(it: I) -> Pairs<I>
        ensures holds { result.it ≡ it }
        ensures lists { (l : List (Result I.Item I.Error)) → Lists I.contract.steps it l
            → Lists ⟦<Pairs<I> as FallibleIterator>⟧.contract.steps result (paired l) }
    {
        Pairs { it }
    }
}

/// How many pairs an iterator yields, or its first failure.
pub fn count_pairs<I: FallibleIterator>(it: I) -> Result<usize, I::Error>
where
    I::Item: Drop,
    requires can_next { I.contract.can_next it }
    requires fits { AtMost I.contract it (2 ^ 64 - 1) }
    ensures { (l : List (Result I.Item I.Error)) → Lists I.contract.steps it l
        → result ≡ counted (paired l) }
{
    Pairs::new(it).count()
}

/// The sums of all pairs, added up modulo 2 ^ 64, or the first failure. Each sum fits, since each item that may come is below 2 ^ 31.
pub fn sum_of_pairs<I: FallibleIterator<Item = u32>>(it: I) -> Result<u64, I::Error>
where
    requires can_next { I.contract.can_next it }
    requires finite { I.contract.is_finite it }
    requires small { (x : ℕ) → I.contract.may_give it x → x < 2 ^ 31 }
    ensures { (l : List (Result ℕ I.Error)) → Lists I.contract.steps it l
        → result ≡ folded (λ e. e) (λ s x. Ok ((s + x) % 2 ^ 64)) 0
        (mapped (λ both. Ok (both.0 + both.1)) (paired l)) }
{
    Pairs::new(it)
        .map(|both: (u32, u32)| Ok(both.0 + both.1))
        .fold(
            0,
            |sum: u64, both: u32| Ok(sum.wrapping_add(u64::from(both))),
        )
}

/// The headline of `Pairs::new(source.map(f)).filter(p)`, a nest with a type of one's own in the middle, over every source. Read from the outside: what it returns is what `filter` makes of `pairs`, each of these is what `MakesPair` makes of a group of answers of the `Map`, and all groups, one after another, are what `map` makes of what the source returns.
pub fn law_nest_around_pairs<
    I: FallibleIterator,
    B: Drop,
    F: FnMut(I::Item) -> Result<B, I::Error>,
    P: FnMut(&(B, B)) -> Result<bool, I::Error>,
>()
where
    ensures { (s : Filter (Pairs (Map I F)) P) (trace : List (Answered (B × B) I.Error))
        (t : Filter (Pairs (Map I F)) P)
        → Run ⟦<Filter<Pairs<Map<I, F>>, P> as FallibleIterator>⟧.contract.steps s trace t
        ↔ FilterTrace (λ a pairs b. GathersAll (λ u drawn v. MapTrace I.contract.traces F.FnMut
        (map_parts u) drawn (map_parts v)) MakesPair a.it pairs b.it)
        P.FnMut (filter_parts s) trace (filter_parts t) }
{
    law_headline::<Filter<Pairs<Map<I, F>>, P>>();
}
