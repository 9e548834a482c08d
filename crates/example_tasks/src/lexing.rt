//! A lexer over any iterator of bytes: numbers, words and signs, read by looking one byte ahead.
ghost use Rattle.std.specs.Prelude.{◌≡◌, ◌-◌, ◌^◌, ℕ, List, Result};
ghost use Rattle.fallible_iterator.specs.Contract.{AtMost, Stays};
ghost use Rattle.fallible_iterator.specs.Laws.Contract.{lawful_parts};
ghost use Rattle.fallible_iterator.specs.Laws.Peeking.Peekable.{lawful_peekable};
ghost use Rattle.fallible_iterator.specs.Lists.{CollectedAs, Lists, numbered, result_answer};
ghost use Rattle.fallible_iterator.specs.Peeking.Peekable.{peekable_made, peekable_parts};
ghost use Rattle.fallible_itertools.specs.Ahead.{making};
ghost use Rattle.fallible_itertools.specs.Laws.Ahead.{lawful_making};
ghost use Rattle.example_tasks.specs.Lexing.{Placed, belongs, kind_of, lexed, rest_lexed, rest_value, sign_at, token_at, value_taken, with_byte};
ghost use Rattle.example_tasks.specs.declared.lexing.Kind.{Kind};

use crate::tokens::{Token, sign_of};
use fallible_iterator::{FallibleIterator, Fault, Peekable, fold_if};
use std::alloc::Global;

/// Why a token could not be read.
#[derive(Clone, Copy, Debug, Drop, PartialEq, Eq)]
pub enum LexFault<E> {
    /// The source failed. What was read of a token before is lost.
    Source(E),
    /// At this place stands a byte that begins no token.
    Unknown(usize, u8),
    /// The number that begins at this place is 2 ^ 64 or more, or the word has more than eight bytes.
    TooLong(usize),
}

// What a token of several bytes is.
#[derive(Clone, Copy)]
pub(crate) enum Kind {
    Number,
    Word,
}

// The kind that a byte begins, if it begins one.
fn kind_of(byte: u8) -> Option<Kind>
    ensures { result ≡ kind_of byte }
{
    if byte.is_ascii_digit() {
        Some(Kind::Number)
    } else if byte.is_ascii_alphabetic() {
        Some(Kind::Word)
    } else {
        None
    }
}

// Whether a byte goes on with a token of this kind.
fn belongs(kind: Kind, byte: u8) -> bool
    ensures { result ≡ belongs kind byte }
{
    match kind {
        Kind::Number => byte.is_ascii_digit(),
        Kind::Word => byte.is_ascii_alphanumeric(),
    }
}

// The value with one byte more, if it fits.
fn with_byte(kind: Kind, value: Option<u64>, byte: u8) -> Option<u64>
    ensures { result ≡ with_byte kind value byte }
{
    match kind {
        Kind::Number => value?
            .checked_mul(10)?
            .checked_add(u64::from(byte.saturating_sub(b'0'))),
        Kind::Word => value?.checked_mul(256)?.checked_add(u64::from(byte)),
    }
}

// The token that a value of this kind is, as `next` returns it.
fn token_at<E>(
    kind: Kind,
    place: usize,
    value: Option<u64>,
) -> Result<Option<(usize, Token)>, LexFault<E>>
    ensures { result ≡ result_answer (token_at kind place value) }
{
    match (kind, value) {
        (Kind::Number, Some(number)) => Ok(Some((place, Token::Number(number)))),
        (Kind::Word, Some(word)) => Ok(Some((place, Token::Word(word)))),
        (_, None) => Err(LexFault::TooLong(place)),
    }
}

// The sign that a byte is, as `next` returns it.
fn sign_at<E>(place: usize, byte: u8) -> Result<Option<(usize, Token)>, LexFault<E>>
    ensures { result ≡ result_answer (sign_at place byte) }
{
    match sign_of(byte) {
        Some(sign) => Ok(Some((place, sign))),
        None => Err(LexFault::Unknown(place, byte)),
    }
}

// The value of a token that was begun, with the bytes that go on with it.
fn value_ahead<I: FallibleIterator<Item = (usize, u8)>>(
    ahead: &mut Peekable<I>,
    kind: Kind,
    begun: Option<u64>,
) -> Result<Option<u64>, I::Error>
where
    requires can_next { ⟦<Peekable<I> as FallibleIterator>⟧.contract.can_next ahead.old }
    requires finite { ⟦<Peekable<I> as FallibleIterator>⟧.contract.is_finite ahead.old }
    ensures value { (l : List (Result Placed I.Error))
        → Lists ⟦<Peekable<I> as FallibleIterator>⟧.contract.steps ahead.old l
        → result ≡ value_taken kind begun l }
    ensures rest { (l : List (Result Placed I.Error))
        → Lists ⟦<Peekable<I> as FallibleIterator>⟧.contract.steps ahead.old l
        → Lists ⟦<Peekable<I> as FallibleIterator>⟧.contract.steps ahead.new
        (rest_value kind begun l) }
    ensures stays { Stays ⟦<Peekable<I> as FallibleIterator>⟧.contract ahead.old ahead.new }
{
    fold_if(
        ahead,
        begun,
        |next: &(usize, u8)| Ok(belongs(kind, next.1)),
        |value: Option<u64>, next: (usize, u8)| Ok(with_byte(kind, value, next.1)),
    )
}

/// The tokens of bytes that come with their places, each with the place of its first byte. Blanks part tokens. A sign is one byte, a number digits in a row, and a word a letter and the letters and digits in a row after it.
///
/// A draw takes the blanks and the token; after a number or a word it looks at the byte that comes next, which stays there. A failure of the source comes as soon as it is met. Among the bytes of a number or a word, or right after them, it takes the place of that token, which is lost. A byte that begins no token is a failure, and so is a number or a word that doesn't fit; the next draw goes on after it.
///
/// Requires that the source is finite.
#[derive(Drop)]
pub struct Lexer<I: FallibleIterator> {
    /// What is drawn from.
    pub ahead: Peekable<I>,
}

impl<I: FallibleIterator<Item = (usize, u8)>> FallibleIterator for Lexer<I> {
    type Item = (usize, Token);

    type Error = LexFault<I::Error>;

    ghost contract = { making (λ s. s.ahead) lexed rest_lexed
        ⟦<Peekable<I> as FallibleIterator>⟧.contract };

    /// Returns the next token and its place.
    fn next(&mut self) -> Result<Option<(usize, Token)>, LexFault<I::Error>> {
        let (place, byte) = match self.ahead.find(|next| Ok(!next.1.is_ascii_whitespace())) {
            Ok(Some(first)) => first,
            Ok(None) => return Ok(None),
            Err(e) => return Err(LexFault::Source(e)),
        };
        let Some(kind) = kind_of(byte) else {
            return sign_at(place, byte);
        };
        match value_ahead(&mut self.ahead, kind, with_byte(kind, Some(0), byte)) {
            Ok(value) => token_at(kind, place, value),
            Err(e) => Err(LexFault::Source(e)),
        }
    }

    fn size_hint(&self) -> (usize, Option<usize>) {
        (0, None)
    }

    ghost lawful = { lawful_making (λ s. s.ahead) lexed rest_lexed
        (lawful_parts peekable_made (lawful_peekable I.lawful)) };
}

impl<I: FallibleIterator<Item = (usize, u8)>> Lexer<I> {
    /// The tokens of these bytes. Making them draws nothing.
    pub fn new(bytes: I) -> Lexer<I>
        ensures parts { peekable_parts result.ahead ≡ (bytes, None) }
        ensures lists { (l : List (Result Placed I.Error)) → Lists I.contract.steps bytes l
            → Lists ⟦<Lexer<I> as FallibleIterator>⟧.contract.steps result (lexed l) }
    {
        Lexer {
            ahead: bytes.peekable(),
        }
    }
}

/// All tokens of these bytes, or the first failure. The place of a byte is how many come before it. It fails with `Fault::Memory` if an allocation fails.
///
/// Requires that `next` may be called on the source, and that it yields at most 2 ^ 64 - 1 bytes.
pub fn lex<I: FallibleIterator<Item = u8>>(
    alloc: Global,
    bytes: I,
) -> Result<Vec<(usize, Token)>, Fault<LexFault<I::Error>>>
where
    requires can_next { I.contract.can_next bytes }
    requires fits { AtMost I.contract bytes (2 ^ 64 - 1) }
    ensures { (l : List (Result ℕ I.Error)) → Lists I.contract.steps bytes l
        → CollectedAs (λ xs c. c.items ≡ xs) (lexed (numbered 0 l)) result }
{
    Lexer::new(bytes.enumerate()).collect(alloc)
}
