//! The tokens of a text that is in memory, read by runs of bytes.
ghost use Rattle.std.specs.Prelude.{◌≡◌, ◌<◌, ◌≤◌, ◌++◌, ℕ, List, None, false, length, slice_index};
ghost use Rattle.std.specs.declared.convert.Infallible.{Infallible};
ghost use Rattle.fallible_iterator.specs.Laws.Showing.{lawful_listing};
ghost use Rattle.fallible_iterator.specs.Lists.{Lists, items, numbered};
ghost use Rattle.fallible_iterator.specs.Showing.{TakesShown, listing};
ghost use Rattle.fallible_json.specs.Bytes.{IsSettled, KeptByDigits, LeavesAt, StandsAt, placed_from, run_from, shows_tokens};
ghost use Rattle.fallible_json.specs.Lexing.{lexed};
ghost use Rattle.fallible_json.specs.Tokens.{after, is_blank};
ghost use Rattle.fallible_json.specs.declared.token.Phase.{Phase};
ghost use Rattle.fallible_json.specs.declared.token.Phase.TheVariants.{Inside};

use crate::lexer::{LexFault, closed};
use crate::token::{Phase, Token, after, is_blank, letter_begun, sign_of};
use fallible_iterator::FallibleIterator;
use std::convert::Infallible;

// Where the blanks end that stand at a place.
fn blanks_end(text: &[u8], from: usize) -> usize
    ensures later { from ≤ result }
    ensures within { from ≤ length text.now → result ≤ length text.now }
    ensures tokens { (rest : List ℕ) → lexed {E = Infallible} (placed_from from (text.now ++ rest))
        ≡ lexed (placed_from result (text.now ++ rest)) }
    ensures ends { result < length text.now → is_blank (slice_index text.now result) ≡ false }
{
    let mut at = from;
    while at < text.len() && is_blank(text[at]) {
        at += 1;
    }
    at
}

// Where the bytes end that stand in a string as they are.
fn chars_end(text: &[u8], from: usize) -> usize
    requires { 0 < from }
    ensures later { from ≤ result }
    ensures within { from ≤ length text.now → result ≤ length text.now }
    ensures run { (rest : List ℕ) → run_from (text.now ++ rest) from Inside
        ≡ run_from (text.now ++ rest) result Inside }
{
    let mut at = from;
    while at < text.len() {
        let byte = text[at];
        if byte < 32 || byte == b'"' || byte == b'\\' {
            return at;
        }
        at += 1;
    }
    at
}

// Where the digits end.
fn digits_end(text: &[u8], from: usize) -> usize
    requires { 0 < from }
    ensures later { from ≤ result }
    ensures within { from ≤ length text.now → result ≤ length text.now }
    ensures run { (rest : List ℕ) (phase : Phase) → KeptByDigits phase
        → run_from (text.now ++ rest) from phase ≡ run_from (text.now ++ rest) result phase }
{
    let mut at = from;
    while at < text.len() && text[at].is_ascii_digit() {
        at += 1;
    }
    at
}

// Where the bytes end that go on with a token and leave its phase as it is, as far as they are stepped over.
fn phase_end(text: &[u8], from: usize, phase: Phase) -> usize
    requires { 0 < from }
    ensures later { from ≤ result }
    ensures within { from ≤ length text.now → result ≤ length text.now }
    ensures run { (rest : List ℕ) → run_from (text.now ++ rest) from phase
        ≡ run_from (text.now ++ rest) result phase }
{
    match phase {
        Phase::Inside => chars_end(text, from),
        Phase::Integer | Phase::Fraction | Phase::Power => digits_end(text, from),
        _ => from,
    }
}

// Where the bytes end that go on with a token that was begun, and what the token is then.
#[inline(always)]
pub(crate) fn run_in(text: &[u8], from: usize, begun: Phase) -> (usize, Phase)
    requires { 0 < from }
    ensures later { from ≤ result.0 }
    ensures within { from ≤ length text.now → result.0 ≤ length text.now }
    ensures run { (rest : List ℕ) → run_from (text.now ++ rest) from begun
        ≡ run_from (text.now ++ rest) result.0 result.1 }
    ensures ends { result.0 < length text.now
        → after result.1 (slice_index text.now result.0) ≡ None }
{
    let mut at = from;
    let mut phase = begun;
    loop {
        if let Phase::Whole(_) = phase {
            return (at, phase);
        }
        let end = phase_end(text, at, phase);
        if text.len() <= end {
            return (end, phase);
        }
        let byte = text[end];
        if let Phase::Inside = phase
            && byte == b'"'
        {
            return (end + 1, Phase::Whole(Token::Text));
        }
        let Some(next) = after(phase, byte) else {
            return (end, phase);
        };
        phase = next;
        at = end + 1;
    }
}

// What stands at a place of a text.
pub(crate) enum Run {
    // Blanks alone, or nothing.
    Blank,
    // A byte that begins no token, after its place.
    Unknown(usize),
    // A token, after the places of its first byte and of the end of those that go on with it, and what they make of it.
    Begun(usize, usize, Phase),
}

// What stands at a place.
#[inline(always)]
pub(crate) fn run_at(text: &[u8], place: usize) -> Run
    ensures { StandsAt text.now place result }
{
    let first = blanks_end(text, place);
    if text.len() <= first {
        return Run::Blank;
    }
    let byte = text[first];
    if let Some(token) = sign_of(byte) {
        return Run::Begun(first, first + 1, Phase::Whole(token));
    }
    let Some(begun) = letter_begun(byte) else {
        return Run::Unknown(first);
    };
    let (end, phase) = run_in(text, first + 1, begun);
    Run::Begun(first, end, phase)
}

// A token, after the places of its first byte and its last.
type Drawn = Result<Option<(usize, usize, Token)>, LexFault<Infallible>>;

// The token that comes next at a place, and where those after it are looked for.
pub(crate) fn token_at(text: &[u8], place: usize) -> (Drawn, usize)
    ensures draws { TakesShown (lexed (placed_from place text.now)) result.0
        (lexed (placed_from result.1 text.now)) }
    ensures settled { (rest : List ℕ) → IsSettled text.now result.0
        → TakesShown (lexed (placed_from place (text.now ++ rest))) result.0
        (lexed (placed_from result.1 (text.now ++ rest))) }
    ensures leaves { LeavesAt text.now place result.0 result.1 }
{
    match run_at(text, place) {
        Run::Blank => (Ok(None), place),
        Run::Unknown(first) => (Err(LexFault::Unknown(first)), first + 1),
        Run::Begun(first, end, phase) => (closed(first, end - 1, phase), end),
    }
}

// The tokens of a text, each after the places of its first byte and its last, as `Tokens` yields them of `PlacedBytes`. Blanks, digits and the bytes of a string are stepped over a run at a time.
#[derive(Drop)]
pub(crate) struct TextTokens<'a> {
    text: &'a [u8],
    // Where the next token is looked for.
    place: usize,
}

impl FallibleIterator for TextTokens<'_> {
    type Item = (usize, usize, Token);

    type Error = LexFault<Infallible>;

    ghost contract = { listing shows_tokens };

    fn next(&mut self) -> Result<Option<(usize, usize, Token)>, LexFault<Infallible>> {
        let (drawn, place) = token_at(self.text, self.place);
        self.place = place;
        drawn
    }

    fn size_hint(&self) -> (usize, Option<usize>) {
        (0, None)
    }

    ghost lawful = { lawful_listing shows_tokens };
}

impl<'a> TextTokens<'a> {
    // The tokens of a text.
    pub(crate) fn new(text: &'a [u8]) -> TextTokens<'a>
        ensures { Lists ⟦<TextTokens<'a> as FallibleIterator>⟧.contract.steps result
            (lexed (numbered 0 (items text.now))) }
    {
        TextTokens { text, place: 0 }
    }
}
