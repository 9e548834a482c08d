//! The tokens of any iterator of bytes that come with their places, read by looking one byte ahead.
ghost use Rattle.std.specs.Prelude.{◌≡◌, List, Result};
ghost use Rattle.fallible_iterator.specs.Contract.{Stays};
ghost use Rattle.fallible_iterator.specs.Laws.Contract.{lawful_parts};
ghost use Rattle.fallible_iterator.specs.Laws.Peeking.Peekable.{lawful_peekable};
ghost use Rattle.fallible_iterator.specs.Lists.{Lists, result_answer};
ghost use Rattle.fallible_iterator.specs.Peeking.Peekable.{peekable_made, peekable_parts};
ghost use Rattle.fallible_itertools.specs.Ahead.{making};
ghost use Rattle.fallible_itertools.specs.Laws.Ahead.{lawful_making};
ghost use Rattle.fallible_json.specs.Lexing.{Placed, closed, lexed, rest_lexed, run_of, with_byte};

use crate::token::{Phase, Token, after, begun_by, goes_on, is_blank, token_of};
use crate::wanted::{Wanted, wanted_in};
use fallible_iterator::{FallibleIterator, Peekable};

/// Why a token could not be read.
#[derive(Clone, Copy, Debug, Drop, PartialEq, Eq)]
pub enum LexFault<E> {
    /// The source failed. What was read of a token before is lost.
    Source(E),
    /// At this place stands a byte that begins no token.
    Unknown(usize),
    /// The byte at this place is the last so far of a token, and none that goes on with it comes after it: one of these.
    Unfinished(usize, Wanted),
}

// The token with a byte that goes on with it.
pub(crate) fn with_byte(phase: Phase, byte: u8) -> Phase
    ensures { result ≡ with_byte phase byte }
{
    after(phase, byte).unwrap_or(phase)
}

// The token whose bytes are these, as `next` returns it.
pub(crate) fn closed<E>(
    first: usize,
    last: usize,
    phase: Phase,
) -> Result<Option<(usize, usize, Token)>, LexFault<E>>
    ensures { result ≡ result_answer (closed first last phase) }
{
    match token_of(phase) {
        Some(token) => Ok(Some((first, last, token))),
        None => Err(LexFault::Unfinished(last, wanted_in(phase))),
    }
}

// Draws the bytes that go on with a token that was begun. The place of its last byte, and what the token is then.
fn run_of<I: FallibleIterator<Item = (usize, u8)>>(
    ahead: &mut Peekable<I>,
    first: usize,
    begun: Phase,
) -> Result<(usize, Phase), I::Error>
where
    requires can_next { ⟦<Peekable<I> as FallibleIterator>⟧.contract.can_next ahead.old }
    requires finite { ⟦<Peekable<I> as FallibleIterator>⟧.contract.is_finite ahead.old }
    ensures value { (l : List (Result Placed I.Error))
        → Lists ⟦<Peekable<I> as FallibleIterator>⟧.contract.steps ahead.old l
        → result ≡ (run_of (first, begun) l).0 }
    ensures rest { (l : List (Result Placed I.Error))
        → Lists ⟦<Peekable<I> as FallibleIterator>⟧.contract.steps ahead.old l
        → Lists ⟦<Peekable<I> as FallibleIterator>⟧.contract.steps ahead.new
        (run_of (first, begun) l).1 }
    ensures stays { Stays ⟦<Peekable<I> as FallibleIterator>⟧.contract ahead.old ahead.new }
{
    let mut left = (*ahead).number();
    let mut last = first;
    let mut phase = begun;
    loop {
        let (place, byte) = match ahead.next_if(|next| goes_on(phase, next.1)) {
            Ok(Some(next)) => next,
            Ok(None) => return Ok((last, phase)),
            Err(e) => return Err(e),
        };
        left = left.one_less();
        last = place;
        phase = with_byte(phase, byte);
    }
}

/// The tokens of JSON of bytes that come with their places, each after the places of its first byte and its last. Blanks, tabs, line feeds and carriage returns part tokens.
///
/// A token is the longest run of bytes that go on with what its first byte begins. A draw takes the blanks and the token, and looks at the byte after it, which stays there. A failure of the source comes as soon as it is met. Among the bytes of a token, or right after them, it takes the place of that token, which is lost. A byte that begins no token is a failure, and so is a run that is no token; the next draw goes on after it.
///
/// Requires that the source is finite.
#[derive(Drop)]
pub struct Tokens<I: FallibleIterator> {
    /// What is drawn from.
    pub ahead: Peekable<I>,
}

impl<I: FallibleIterator<Item = (usize, u8)>> FallibleIterator for Tokens<I> {
    type Item = (usize, usize, Token);

    type Error = LexFault<I::Error>;

    ghost contract = { making (λ s. s.ahead) lexed rest_lexed
        ⟦<Peekable<I> as FallibleIterator>⟧.contract };

    /// Returns the next token and its places.
    fn next(&mut self) -> Result<Option<(usize, usize, Token)>, LexFault<I::Error>> {
        let (first, byte) = match self.ahead.find(|next| Ok(!is_blank(next.1))) {
            Ok(Some(first)) => first,
            Ok(None) => return Ok(None),
            Err(e) => return Err(LexFault::Source(e)),
        };
        let Some(phase) = begun_by(byte) else {
            return Err(LexFault::Unknown(first));
        };
        match run_of(&mut self.ahead, first, phase) {
            Ok((last, ended)) => closed(first, last, ended),
            Err(e) => Err(LexFault::Source(e)),
        }
    }

    fn size_hint(&self) -> (usize, Option<usize>) {
        (0, None)
    }

    ghost lawful = { lawful_making (λ s. s.ahead) lexed rest_lexed
        (lawful_parts peekable_made (lawful_peekable I.lawful)) };
}

impl<I: FallibleIterator<Item = (usize, u8)>> Tokens<I> {
    /// The tokens of these bytes. Making them draws nothing.
    pub fn new(bytes: I) -> Tokens<I>
        ensures parts { peekable_parts result.ahead ≡ (bytes, None) }
        ensures lists { (l : List (Result Placed I.Error)) → Lists I.contract.steps bytes l
            → Lists ⟦<Tokens<I> as FallibleIterator>⟧.contract.steps result (lexed l) }
    {
        Tokens {
            ahead: bytes.peekable(),
        }
    }
}
