//! Chains over what std goes through, of which each element is an item.
ghost use Rattle.std.specs.Prelude.{◌≡◌, ◌+◌, ◌-◌, ◌%◌, ◌^◌, Ok, eqb, length, map, nat_lt};
ghost use Rattle.std.specs.Char.{is_ascii_digit};
ghost use Rattle.std.specs.HashMap as hash;
ghost use Rattle.std.specs.List.{range_with_len, slice_split};
ghost use Rattle.std.specs.Ordering.{nat_cmp};
ghost use Rattle.std.specs.Str.{chars};
ghost use Rattle.std.specs.Str.Lines.{lines};
ghost use Rattle.fallible_iterator.specs.Lists.{all_of, any_of, counted, filtered, folded, greatest, items, last_of};

use fallible_iterator::{FallibleIterator, convert};
use std::collections::{BTreeSet, HashMap, VecDeque};

/// The sum of the numbers, modulo 2 ^ 64.
pub fn sum_of_numbers(numbers: Vec<u32>) -> Result<u64, u8>
    ensures { result ≡ folded (λ e. e) (λ s x. Ok ((s + x) % 2 ^ 64)) 0 (items numbers.items) }
{
    convert(numbers.into_iter().map(Ok)).fold(
        0,
        |sum: u64, number: u32| Ok(sum.wrapping_add(u64::from(number))),
    )
}

/// How many numbers are above 100.
pub fn above_100_of_numbers(numbers: Vec<u32>) -> Result<usize, u8>
    ensures { result ≡ counted (filtered (λ x. Ok (nat_lt 100 x)) (items numbers.items)) }
{
    convert(numbers.into_iter().map(Ok))
        .filter(|number| Ok(*number > 100))
        .count()
}

/// Whether all numbers of a deque are above 100.
pub fn all_above_100_in_deque(numbers: VecDeque<u32>) -> Result<bool, u8>
    ensures { result ≡ all_of (λ x. Ok (nat_lt 100 x)) (items numbers.items) }
{
    convert(numbers.into_iter().map(Ok)).all(|number| Ok(number > 100))
}

/// The greatest of four numbers.
pub fn greatest_of_four(numbers: [u32; 4]) -> Result<Option<u32>, u8>
    ensures { result ≡ greatest nat_cmp (items numbers) }
{
    convert(numbers.into_iter().map(Ok)).max()
}

/// Whether a number from `start` on and below `end` is above 100.
pub fn any_between_above_100(start: u32, end: u32) -> Result<bool, u8>
    ensures { result ≡ any_of (λ x. Ok (nat_lt 100 x))
        (items (range_with_len start (end - start))) }
{
    convert((start..end).map(Ok)).any(|number| Ok(number > 100))
}

/// The last number of a sorted set.
pub fn last_of_set(numbers: &BTreeSet<u32>) -> Result<Option<u32>, u8>
    ensures { result ≡ last_of (items numbers.now.keys) }
{
    convert(numbers.iter().copied().map(Ok)).last()
}

/// The sum of the values of a map, modulo 2 ^ 64.
pub fn sum_of_values(counts: &HashMap<u32, u32>) -> Result<u64, u8>
    ensures { result ≡ folded (λ e. e) (λ s x. Ok ((s + x) % 2 ^ 64)) 0
        (items (hash.values counts.now)) }
{
    convert(counts.values().copied().map(Ok)).fold(
        0,
        |sum: u64, count: u32| Ok(sum.wrapping_add(u64::from(count))),
    )
}

/// How many characters of a text are digits.
pub fn digits_in(text: &str) -> Result<usize, u8>
    ensures { result ≡ counted (filtered (λ c. Ok (is_ascii_digit c)) (items (chars text.now))) }
{
    convert(text.chars().map(Ok))
        .filter(|c| Ok(c.is_ascii_digit()))
        .count()
}

/// The length of the longest cell of a row.
pub fn longest_cell(row: &str) -> Result<Option<usize>, u8>
    ensures { result ≡ greatest nat_cmp
        (items (map length (slice_split (λ b. eqb b 44) row.now))) }
{
    convert(row.split(',').map(|cell| Ok(cell.len()))).max()
}

/// The length of the longest line of a text.
pub fn longest_line(text: &str) -> Result<Option<usize>, u8>
    ensures { result ≡ greatest nat_cmp (items (map length (lines text.now))) }
{
    convert(text.lines().map(|line| Ok(line.len()))).max()
}
