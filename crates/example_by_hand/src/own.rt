//! Sources of one's own that show what they list.
ghost use Rattle.std.specs.Prelude.{◌≡◌, ℕ, ◌+◌, ◌-◌, ◌*◌, ◌%◌, ◌^◌, ◌<◌, ◌≤◌, eqb, length, nat_lt, List, Result, Ok, IfOk};
ghost use Rattle.fallible_iterator.specs.BothEnds.{ListsBothEnds};
ghost use Rattle.fallible_iterator.specs.Bridges.Unwrap.{unwrapped};
ghost use Rattle.fallible_iterator.specs.Contract.{AtMost, NeverFails};
ghost use Rattle.fallible_iterator.specs.Laws.Own.{lawful_giving};
ghost use Rattle.fallible_iterator.specs.Laws.Showing.{lawful_listing};
ghost use Rattle.fallible_iterator.specs.Laws.ShowingEnds.{lawful_ends_listing};
ghost use Rattle.fallible_iterator.specs.Lists.{Lists, CollectedAs, chained, counted, filtered, flattened, folded, found, mapped, repeated, results, reversed, taken, zipped};
ghost use Rattle.fallible_iterator.specs.Own.{giving};
ghost use Rattle.fallible_iterator.specs.Showing.{listing};
ghost use Rattle.fallible_iterator.specs.ShowingEnds.{listing_ends};
ghost use Rattle.fallible_iterator.specs.Sound.{BoundsBelow};
ghost use Rattle.example_by_hand.specs.Between.{numbers_between, shows_between};
ghost use Rattle.example_by_hand.specs.Down.{counting_from, counts_down, down_from};
ghost use Rattle.example_by_hand.specs.Rounds.{shows_rounds};

use fallible_iterator::laws::hints::law_hints;
use fallible_iterator::laws::{law_flat_map_finite, law_flatten_finite};
use fallible_iterator::{
    Chain, DoubleEndedFallibleIterator, FallibleIterator, Fault, IntoFallibleIterator, Once, Take,
    convert, once,
};
use std::alloc::{AllocError, Global};

/// Counts down to 1. Then each call returns `Ok(None)`.
#[derive(Drop)]
pub struct Countdown {
    left: u32,
}

impl FallibleIterator for Countdown {
    type Item = u32;

    type Error = u8;

    ghost contract = { listing counts_down };

    /// Returns the next lower number.
    fn next(&mut self) -> Result<Option<u32>, u8> {
        if self.left == 0 {
            return Ok(None);
        }
        let x = self.left;
        self.left -= 1;
        Ok(Some(x))
    }

    fn size_hint(&self) -> (usize, Option<usize>) {
        (0, None)
    }

    ghost lawful = { lawful_listing counts_down };
}

impl Countdown {
    /// A countdown from a number.
    pub fn new(left: u32) -> Countdown
        ensures lists { Lists (listing counts_down).steps result (down_from left) }
        ensures fits { AtMost (listing counts_down) result left }
    {
        Countdown { left }
    }
}

/// How many of the numbers from n down to 1 are even.
pub fn even_below(n: u32) -> Result<usize, u8>
    ensures { result ≡ counted (filtered (λ x. Ok (eqb (x % 2) 0)) (down_from n)) }
{
    Countdown::new(n).filter(|x| Ok(*x % 2 == 0)).count()
}

/// The first `size` of a countdown's numbers and one after them, and how many a vector for these should have room for: no more than come, if they end.
pub fn with_room(
    numbers: Countdown,
    last: u32,
    size: usize,
) -> (Take<Chain<Countdown, Once<u32, u8>>>, usize)
    ensures { BoundsBelow
        ⟦<Take<Chain<Countdown, Once<u32, u8>>> as FallibleIterator>⟧.contract.steps result.0
        result.1 }
{
    law_hints::<Take<Chain<Countdown, Once<u32, u8>>>>();
    let taken = numbers.chain(once(last)).take(size);
    let (least, _) = taken.size_hint();
    (taken, least)
}

/// How many numbers a countdown from n yields, which std counts after a look ahead.
pub fn numbers_down(n: u32) -> usize
    ensures { result ≡ length (down_from n) }
{
    Countdown::new(n).peekable().iterator().count()
}

/// How many pairs there are of a number from n down to 1 and one of those from `low` to below `high`, which std counts.
pub fn pairs_down(n: u32, low: u32, high: u32) -> usize
    ensures { result ≡ length (zipped (down_from n) (numbers_between low high)) }
{
    Countdown::new(n)
        .zip(Between::new(low, high))
        .iterator()
        .count()
}

/// How many of these pairs have the same number twice, which a std loop counts, or the first failure. No clause says the value.
pub fn same_in_pairs(n: u32, low: u32, high: u32) -> Result<u32, u8> {
    let mut same: u32 = 0;
    for pair in Countdown::new(n).zip(Between::new(low, high)).iterator() {
        let (left, right) = pair?;
        if left == right {
            same = same.wrapping_add(1);
        }
    }
    Ok(same)
}

/// How many of the numbers from n down to 1 are even, which a std loop counts, or the first failure. No clause says the value.
pub fn even_in_loop(n: u32) -> Result<u32, u8> {
    let mut even: u32 = 0;
    for number in Countdown::new(n).iterator() {
        if number? % 2 == 0 {
            even = even.wrapping_add(1);
        }
    }
    Ok(even)
}

/// The sum of the numbers that are left, modulo 2 ^ 64.
#[tactic(auto, using(fallible_iterator::specs::Laws::Showing::shown_before), unfolding(fallible_iterator::specs::Lists::folded))]
pub fn sum_down(mut numbers: Countdown) -> Result<u64, u8>
    ensures { result ≡ folded (λ e. e) (λ s x. Ok ((s + x) % 2 ^ 64)) 0 (counts_down numbers) }
{
    let mut sum: u64 = 0;
    while let Some(number) = numbers.next()? {
        sum = sum.wrapping_add(u64::from(number));
    }
    Ok(sum)
}

/// The sum of the doubled numbers that are left, modulo 2 ^ 64: what a fold after `map` comes to, by a loop that maps nothing.
#[tactic(auto, using(fallible_iterator::specs::Laws::Showing::shown_before), unfolding(fallible_iterator::specs::Lists::folded))]
pub fn sum_down_doubled(mut numbers: Countdown) -> Result<u64, u8>
    ensures { result ≡ folded (λ e. e) (λ s x. Ok ((s + x) % 2 ^ 64)) 0
        (mapped (λ x. Ok (x * 2)) (counts_down numbers)) }
{
    let mut sum: u64 = 0;
    while let Some(number) = numbers.next()? {
        sum = sum.wrapping_add(u64::from(number) * 2);
    }
    Ok(sum)
}

/// The numbers from `low` to below `high`, which std collects, unless an allocation fails.
pub fn collected_between(alloc: Global, low: u32, high: u32) -> Result<Vec<u32>, AllocError>
    ensures { IfOk result (λ made. made.items ≡ unwrapped (numbers_between low high)) }
{
    Between::new(low, high).unwrap().collect(alloc)
}

/// The numbers from `low` to below `high`, each as a result, which std collects, unless an allocation fails.
pub fn try_collect_between(alloc: Global, low: u32, high: u32) -> Result<Vec<u32>, AllocError>
    ensures { IfOk result (λ made. made.items ≡ unwrapped (numbers_between low high)) }
{
    Between::new(low, high)
        .unwrap()
        .map(|number| Ok::<_, AllocError>(number))
        .try_collect(alloc)
}

/// The countdowns from each number, one after the other, of which at most 1000 numbers come, unless an allocation fails.
pub fn countdowns(alloc: Global, numbers: Vec<Result<u32, u8>>) -> Result<Vec<u32>, Fault<u8>>
    ensures { CollectedAs (λ xs v. v.items ≡ xs)
        (taken 1000
        (flattened counts_down (mapped (λ n. Ok (counting_from n)) (results numbers.items))))
        result }
{
    convert(numbers.into_iter())
        .flat_map(|number: u32| Ok(Countdown { left: number }))
        .take(1000)
        .collect(alloc)
}

/// Countdowns from one number below 256, as many as are left.
#[derive(Drop)]
pub struct Rounds {
    left: u32,
    from: u8,
}

impl FallibleIterator for Rounds {
    type Item = Countdown;

    type Error = u8;

    ghost contract = { giving (λ round. round.left < 256) (listing shows_rounds) };

    /// Returns the next countdown.
    fn next(&mut self) -> Result<Option<Countdown>, u8> {
        if self.left == 0 {
            return Ok(None);
        }
        self.left -= 1;
        let left = u32::from(self.from);
        Ok(Some(Countdown { left }))
    }

    fn size_hint(&self) -> (usize, Option<usize>) {
        (0, None)
    }

    ghost lawful = { lawful_giving (λ round. round.left < 256) (lawful_listing shows_rounds) };
}

/// How many numbers the rounds of so many countdowns yield, modulo 2 ^ 64.
pub fn numbers_in_rounds(left: u32, from: u8) -> Result<u64, u8>
    ensures { result ≡ folded (λ e. e) (λ n _. Ok ((n + 1) % 2 ^ 64)) 0
        (flattened counts_down (repeated left (counting_from from))) }
{
    let joined = Rounds { left, from }.flatten();
    law_flatten_finite(&joined, 255);
    joined.fold(0, |n: u64, _| Ok(n.wrapping_add(1)))
}

/// The first number above 100 of the countdowns from each number, one after the other, or the failure before it. The source may have no bound.
pub fn first_above_100<I: FallibleIterator<Item = u8, Error = u8>>(
    numbers: I,
) -> Result<Option<u32>, u8>
where
    requires { I.contract.can_next numbers }
    ensures { (l : List (Result ℕ ℕ)) → Lists I.contract.steps numbers l
        → result ≡ found (λ x. Ok (nat_lt 100 x))
        (flattened counts_down (mapped (λ n. Ok (counting_from n)) (taken (2 ^ 64 - 1) l))) }
{
    let mut joined = numbers.take(usize::MAX).flat_map(|number: u8| Ok(Countdown {
        left: u32::from(number),
    }));
    law_flat_map_finite(&joined, 255);
    joined.find(|number| Ok(*number > 100))
}

/// The numbers from `low` to below `high`, from either end.
#[derive(Drop)]
pub struct Between {
    low: u32,
    high: u32,
}

impl FallibleIterator for Between {
    type Item = u32;

    type Error = u8;

    ghost contract = { listing shows_between };

    /// Returns the lowest number that is left.
    fn next(&mut self) -> Result<Option<u32>, u8> {
        if self.low >= self.high {
            return Ok(None);
        }
        let x = self.low;
        self.low += 1;
        Ok(Some(x))
    }

    fn size_hint(&self) -> (usize, Option<usize>) {
        (0, None)
    }

    ghost lawful = { lawful_listing shows_between };
}

impl DoubleEndedFallibleIterator for Between {
    ghost ends = { listing_ends shows_between };

    /// Returns the greatest number that is left.
    fn next_back(&mut self) -> Result<Option<u32>, u8> {
        if self.low >= self.high {
            return Ok(None);
        }
        self.high -= 1;
        Ok(Some(self.high))
    }

    ghost lawful_ends = { lawful_ends_listing shows_between };
}

impl Between {
    /// The numbers from `low` to below `high`.
    pub fn new(low: u32, high: u32) -> Between
        ensures both { ListsBothEnds (listing shows_between).steps
            (listing_ends shows_between).steps result (numbers_between low high) }
        ensures lists { Lists (listing shows_between).steps result (numbers_between low high) }
        ensures back { Lists (listing_ends shows_between).steps result
            (reversed (numbers_between low high)) }
        ensures sure { NeverFails (listing shows_between) result }
        ensures fits { AtMost (listing shows_between) result (high - low) }
    {
        Between { low, high }
    }
}

/// How many of the numbers from `low` to below `high` are even, counted from the back.
pub fn even_between(low: u32, high: u32) -> Result<usize, u8>
    ensures { result ≡ counted
        (filtered (λ x. Ok (eqb (x % 2) 0)) (reversed (numbers_between low high))) }
{
    Between::new(low, high)
        .rev()
        .filter(|x| Ok(*x % 2 == 0))
        .count()
}

/// The numbers from `low` to below `high`. It is no iterator, and becomes one.
#[derive(Drop)]
pub struct Span {
    /// the lowest number
    pub low: u32,
    /// above the greatest number
    pub high: u32,
}

impl IntoFallibleIterator for Span {
    type Item = u32;

    type Error = u8;

    type IntoFallibleIter = Between;

    ghost into_gives = { λ span it. Lists (listing shows_between).steps it
        (numbers_between span.low span.high) };

    fn into_fallible_iter(self) -> Between {
        Between::new(self.low, self.high)
    }
}

/// The sum of the items and then of the numbers of a span, modulo 2 ^ 64, or the first failure.
pub fn sum_with<I: FallibleIterator<Item = u32, Error = u8>>(it: I, span: Span) -> Result<u64, u8>
where
    requires can_next { I.contract.can_next it }
    requires finite { I.contract.is_finite it }
    ensures { (l : List (Result ℕ ℕ)) → Lists I.contract.steps it l
        → result ≡ folded (λ e. e) (λ s x. Ok ((s + x) % 2 ^ 64)) 0
        (chained l (numbers_between span.low span.high)) }
{
    it.chain(span)
        .fold(0, |sum: u64, x: u32| Ok(sum.wrapping_add(u64::from(x))))
}
