//! The value of tokens that come with their places, or the first fault and its place.
ghost use Rattle.std.specs.Prelude.{◌≡◌, ◌≢◌, ◌-◌, ◌^◌, ℕ, List, Result, Ok, Err, map};
ghost use Rattle.std.specs.Int.{cast_signed, w64};
ghost use Rattle.fallible_iterator.specs.Contract.{AtMost};
ghost use Rattle.fallible_iterator.specs.Lists.{Lists, items, numbered};
ghost use Rattle.example_tasks.specs.Evaluating.{IsPlacedValueInRoom, PlacedToken, ended, fault_at, value_of_placed};
ghost use Rattle.example_tasks.specs.Grammar.{Expression, as_sum, expression_value, written};
ghost use Rattle.example_tasks.specs.Lexing.{lexed};
ghost use Rattle.example_tasks.specs.declared.evaluating.Misplaced.TheVariants.{Memory};

use crate::lexing::{LexFault, Lexer};
use crate::tokens::{Calculation, EMPTY, TextFault, Token};
use fallible_iterator::FallibleIterator;
use std::alloc::Global;

/// Why tokens have no value.
#[derive(Clone, Copy, Debug, Drop, PartialEq, Eq)]
pub enum Misplaced<E> {
    /// The source of the tokens failed.
    Source(E),
    /// At this place stands this token, where none of its kind may stand.
    Unexpected(usize, Token),
    /// The tokens end where one is missing.
    Ended,
    /// An allocation failed.
    Memory,
}

// The fault of a token with its place.
fn fault_at<E>(place: usize, token: Token, fault: TextFault) -> Misplaced<E>
    ensures { result ≡ fault_at (place, token) fault }
{
    match fault {
        TextFault::Memory => Misplaced::Memory,
        TextFault::Unexpected | TextFault::Unknown => Misplaced::Unexpected(place, token),
    }
}

// The value at the end, as a signed number.
fn ended<E>(value: Result<u64, TextFault>) -> Result<i64, Misplaced<E>>
    ensures { result ≡ ended value }
{
    match value {
        Ok(value) => Ok(value.cast_signed()),
        Err(_) => Err(Misplaced::Ended),
    }
}

/// The value of tokens of numbers, `+`, `-`, `*` and parentheses, modulo 2 ^ 64, as a signed number. It draws up to `Ok(None)` or the first fault, which is returned: the source's failure, the first token that may not stand where it stands, with its place, or the end where a token is missing. It fails with `Memory` at an opening parenthesis if an allocation fails: only if as many are open as the vector of those has room for.
///
/// Requires that `next` may be called on the source, and that it is finite.
pub fn value_of_placed<I: FallibleIterator<Item = (usize, Token)>>(
    alloc: Global,
    mut tokens: I,
) -> Result<i64, Misplaced<I::Error>>
where
    requires can_next { I.contract.can_next tokens }
    requires finite { I.contract.is_finite tokens }
    ensures value { (l : List (Result PlacedToken I.Error)) → Lists I.contract.steps tokens l
        → result ≢ Err Memory → result ≡ value_of_placed l }
    ensures room { (l : List (Result PlacedToken I.Error)) → Lists I.contract.steps tokens l
        → IsPlacedValueInRoom l result }
{
    let mut left = tokens.number();
    let mut calculation = Calculation {
        outside: Vec::new(alloc),
        level: EMPTY,
        is_begun: true,
    };
    loop {
        let (place, token) = match tokens.draw() {
            Ok(Some(next)) => next,
            Ok(None) => return ended(calculation.end()),
            Err(e) => return Err(Misplaced::Source(e)),
        };
        left = left.one_less();
        calculation = match calculation.after(token) {
            Ok(after) => after,
            Err(fault) => return Err(fault_at(place, token, fault)),
        };
    }
}

/// What is written of a sum, a difference or a product, with the parentheses that it needs and any others, has its value, whatever the places of its tokens.
pub fn law_written_placed<E>()
    ensures { (e : Expression) (xs : List PlacedToken)
        → map (λ x. x.1) xs ≡ written as_sum e
        → value_of_placed {E = E} (items xs) ≡ Ok (cast_signed w64 (expression_value e)) }
{}

/// The value of a text of numbers, `+`, `-`, `*` and parentheses, whose bytes come from any source, modulo 2 ^ 64, as a signed number. It draws up to the first fault, of the source, of the lexer or of the tokens, which is returned. It fails with `Memory` at an opening parenthesis if an allocation fails: only if as many are open as the vector of those has room for. Over the bytes of `1+2*(3-4)` it is `Ok(-1)`.
///
/// Requires that `next` may be called on the source, and that it yields at most 2 ^ 64 - 1 bytes.
pub fn evaluate<I: FallibleIterator<Item = u8>>(
    alloc: Global,
    bytes: I,
) -> Result<i64, Misplaced<LexFault<I::Error>>>
where
    requires can_next { I.contract.can_next bytes }
    requires fits { AtMost I.contract bytes (2 ^ 64 - 1) }
    ensures value { (l : List (Result ℕ I.Error)) → Lists I.contract.steps bytes l
        → result ≢ Err Memory → result ≡ value_of_placed (lexed (numbered 0 l)) }
    ensures written { (l : List (Result ℕ I.Error)) → Lists I.contract.steps bytes l
        → (e : Expression) (xs : List PlacedToken) → map (λ x. x.1) xs ≡ written as_sum e
        → lexed (numbered 0 l) ≡ items xs → result ≢ Err Memory
        → result ≡ Ok (cast_signed w64 (expression_value e)) }
    ensures room { (l : List (Result ℕ I.Error)) → Lists I.contract.steps bytes l
        → IsPlacedValueInRoom (lexed (numbered 0 l)) result }
{
    law_written_placed::<LexFault<I::Error>>();
    value_of_placed(alloc, Lexer::new(bytes.enumerate()))
}
