//! Callers of what clones, over texts, whose clones may fail: each states the value up to an allocation failure, by one term.
ghost use Rattle.std.specs.Prelude.{◌≡◌, ◌∷◌, List, Result};
ghost use Rattle.std.specs.String.{string_bytes};
ghost use Rattle.fallible_iterator.specs.Lists.{cycled, items, pointed_to, results};
ghost use Rattle.fallible_iterator.specs.Making.{CollectedMade};
ghost use Rattle.fallible_iterator.specs.Refusing.{ListsUntilRefused};
ghost use Rattle.fallible_itertools.specs.Intersperse.{interspersed};
ghost use Rattle.fallible_itertools.specs.Tuples.{HasSecondCloned, windowed};
ghost use Rattle.example_itertools.specs.declared.cloning.NoWord.{NoWord};
ghost use Rattle.std.specs.declared.alloc.AllocError.{AllocError};
ghost use Rattle.std.specs.declared.alloc.Global.{Global};
ghost use Rattle.std.specs.declared.string.String.{String};

use fallible_iterator::laws::law_cycle_until_refused;
use fallible_iterator::{FallibleIterator, Fault, convert};
use fallible_itertools::FallibleItertools;
use std::alloc::{AllocError, Global};

/// Why there is no word.
#[derive(Debug, Drop, PartialEq)]
pub enum NoWord {
    /// A word failed, with this code.
    Failed(u8),
    /// An allocation failed.
    Memory,
}

impl From<AllocError> for NoWord {
    ghost use Rattle.example_itertools.specs.declared.cloning.NoWord.TheVariants.{Memory};

    ghost from_gives = { λ refused why. why ≡ Memory };

    /// Returns `NoWord::Memory`.
    fn from(_: AllocError) -> NoWord {
        NoWord::Memory
    }
}

/// The words, or the first failure, up to an allocation failure. Each word is known by its bytes.
pub fn gathered<I: FallibleIterator<Item = String, Error = NoWord>>(
    alloc: Global,
    words: I,
) -> Result<Vec<String>, Fault<NoWord>>
where
    requires can_next { I.contract.can_next words }
    requires finite { I.contract.is_finite words }
    ensures { (l : List (Result (String Global) NoWord))
        → ListsUntilRefused (λ word copy. string_bytes copy ≡ string_bytes word)
        I.contract.steps (λ refused why. why ≡ NoWord.Memory) words l
        → CollectedMade (λ word copy. string_bytes copy ≡ string_bytes word)
        (λ refused why. why ≡ NoWord.Memory) (λ copies v. v.items ≡ copies) l result }
{
    words.collect(alloc)
}

/// The pairs of words, or the first failure, up to an allocation failure. The second word of each is known by its bytes.
pub fn gathered_pairs<I: FallibleIterator<Item = (String, String), Error = NoWord>>(
    alloc: Global,
    pairs: I,
) -> Result<Vec<(String, String)>, Fault<NoWord>>
where
    requires can_next { I.contract.can_next pairs }
    requires finite { I.contract.is_finite pairs }
    ensures { (l : List (Result (String Global × String Global) NoWord))
        → ListsUntilRefused (HasSecondCloned (λ word copy. string_bytes copy ≡ string_bytes word))
        I.contract.steps (λ refused why. why ≡ NoWord.Memory) pairs l
        → CollectedMade (HasSecondCloned (λ word copy. string_bytes copy ≡ string_bytes word))
        (λ refused why. why ≡ NoWord.Memory) (λ copies v. v.items ≡ copies) l result }
{
    pairs.collect(alloc)
}

/// Copies of the words, or the first failure, up to an allocation failure.
pub fn copies_of<'a>(
    alloc: Global,
    words: Vec<Result<&'a String, NoWord>>,
) -> Result<Vec<String>, Fault<NoWord>>
    ensures { CollectedMade (λ word copy. string_bytes copy ≡ string_bytes word)
        (λ refused why. why ≡ NoWord.Memory) (λ copies v. v.items ≡ copies)
        (pointed_to (results words.entry.items)) result }
{
    gathered(alloc, convert(words.into_iter()).cloned())
}

/// The first n words of rounds of an iterator that starts anew at each `Ok(None)`, up to an allocation failure.
pub fn words_in_rounds<I: FallibleIterator<Item = String, Error = NoWord> + Clone>(
    alloc: Global,
    words: I,
    n: usize,
) -> Result<Vec<String>, Fault<NoWord>>
where
    requires clones { (c : I) → I.is_clone words c → I.contract.can_next c }
    ensures { (x : String Global) (xs : List (String Global))
        → ((c : I) → I.is_clone words c
        → ListsUntilRefused (λ word copy. string_bytes copy ≡ string_bytes word)
        I.contract.steps (λ refused why. why ≡ NoWord.Memory) c (items (x ∷ xs)))
        → CollectedMade (λ word copy. string_bytes copy ≡ string_bytes word)
        (λ refused why. why ≡ NoWord.Memory) (λ copies v. v.items ≡ copies)
        (cycled n (x ∷ xs)) result }
{
    law_cycle_until_refused::<I>();
    match words.cycle() {
        Ok(rounds) => gathered(alloc, rounds.take(n)),
        Err(refused) => Err(Fault::Memory(refused)),
    }
}

/// The words with the separator between each two adjacent ones, or the first failure, up to an allocation failure.
pub fn separated_words(
    alloc: Global,
    words: Vec<Result<String, NoWord>>,
    separator: String,
) -> Result<Vec<String>, Fault<NoWord>>
    ensures { CollectedMade (λ word copy. string_bytes copy ≡ string_bytes word)
        (λ refused why. why ≡ NoWord.Memory) (λ copies v. v.items ≡ copies)
        (interspersed separator (results words.items)) result }
{
    gathered(alloc, convert(words.into_iter()).intersperse(separator))
}

/// Each two adjacent words, or the first failure, up to an allocation failure.
pub fn adjacent_words(
    alloc: Global,
    words: Vec<Result<String, NoWord>>,
) -> Result<Vec<(String, String)>, Fault<NoWord>>
    ensures { CollectedMade
        (HasSecondCloned (λ word copy. string_bytes copy ≡ string_bytes word))
        (λ refused why. why ≡ NoWord.Memory) (λ pairs v. v.items ≡ pairs)
        (windowed (results words.items)) result }
{
    gathered_pairs(alloc, convert(words.into_iter()).tuple_windows())
}
