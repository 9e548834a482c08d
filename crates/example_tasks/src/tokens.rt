//! Sums, differences and products with parentheses.
ghost use Rattle.std.specs.Prelude.{◌≡◌, ◌≢◌, ◌<◌, ◌≤◌, false, true, List, Result, Ok, Err, MatchResult, IfOk, length, reverse, slice_index, vec_len, vec_capacity};
ghost use Rattle.std.specs.Char.{is_ascii_digit};
ghost use Rattle.std.specs.Str.{IsAscii};
ghost use Rattle.fallible_iterator.specs.Laws.Showing.{lawful_listing};
ghost use Rattle.fallible_iterator.specs.Lists.{Lists, items, result_answer};
ghost use Rattle.fallible_iterator.specs.Showing.{listing};
ghost use Rattle.example_tasks.specs.Expressions.{number_token, sign_of, sign_token, tokens_of, ReadsDigits, level_value, with_factor, after_token, value_at_end, value_of_tokens, IsValueInRoom};
ghost use Rattle.example_tasks.specs.Grammar.{Expression, as_sum, written, expression_value};
ghost use Rattle.example_tasks.specs.declared.tokens.Token.{Token};
ghost use Rattle.example_tasks.specs.declared.tokens.TextFault.{TextFault};

use fallible_iterator::FallibleIterator;
use program_io::numbers::number_of;
use std::alloc::Global;

/// A token.
#[derive(Clone, Copy, Debug, PartialEq, Eq)]
pub enum Token {
    /// A number.
    Number(u64),
    /// A word of at most eight bytes, as their number in base 256.
    Word(u64),
    /// A sum's sign.
    Plus,
    /// A difference's sign.
    Minus,
    /// A product's sign.
    Times,
    /// An opening parenthesis.
    Open,
    /// A closing parenthesis.
    Close,
}

/// Why a text has no value.
#[derive(Clone, Copy, Debug, PartialEq, Eq)]
pub enum TextFault {
    /// A byte that begins no token, or a number that doesn't fit.
    Unknown,
    /// A token where none of its kind may stand, or an end where one is missing.
    Unexpected,
    /// An allocation failed.
    Memory,
}

// The token that digits are, as `next` returns it.
fn number_token(digits: &[u8]) -> Result<Option<Token>, TextFault>
    requires { IsAscii digits.now }
    ensures { result ≡ result_answer (number_token digits.now) }
{
    let Ok(text) = str::from_utf8(digits) else {
        return Err(TextFault::Unknown);
    };
    match number_of(text) {
        Some(number) => Ok(Some(Token::Number(number))),
        None => Err(TextFault::Unknown),
    }
}

// The sign that a byte is, if it is one.
pub(crate) fn sign_of(byte: u8) -> Option<Token>
    ensures { result ≡ sign_of byte }
{
    match byte {
        b'+' => Some(Token::Plus),
        b'-' => Some(Token::Minus),
        b'*' => Some(Token::Times),
        b'(' => Some(Token::Open),
        b')' => Some(Token::Close),
        _ => None,
    }
}

// The token that another byte is, as `next` returns it.
fn sign_token(byte: u8) -> Result<Option<Token>, TextFault>
    ensures { result ≡ result_answer (sign_token byte) }
{
    match sign_of(byte) {
        Some(sign) => Ok(Some(sign)),
        None => Err(TextFault::Unknown),
    }
}

// How many digits stand in front.
fn digits_in_front(text: &[u8]) -> usize
    ensures reads { ReadsDigits text.now result }
    ensures stops { result < length text.now
        → is_ascii_digit (slice_index text.now result) ≡ false }
{
    let mut end = 0;
    while end < text.len() {
        if !text[end].is_ascii_digit() {
            return end;
        }
        end += 1;
    }
    end
}

/// The tokens of a text. A byte that begins none is a failure, and so is a number that doesn't fit. The next draw goes on after either.
#[derive(Drop)]
pub struct Tokens<'a> {
    text: &'a [u8],
}

impl<'a> Tokens<'a> {
    /// The tokens of this text. Making them reads nothing.
    pub fn new(text: &'a [u8]) -> Tokens<'a>
        ensures { Lists (listing (λ s. tokens_of s.text.now)).steps result (tokens_of text.now) }
    {
        Tokens { text }
    }
}

impl FallibleIterator for Tokens<'_> {
    type Item = Token;

    type Error = TextFault;

    ghost contract = { listing (λ s. tokens_of s.text.now) };

    fn next(&mut self) -> Result<Option<Token>, TextFault> {
        let Some((first, rest)) = self.text.split_first() else {
            return Ok(None);
        };
        if !first.is_ascii_digit() {
            self.text = rest;
            return sign_token(*first);
        }
        let (digits, after) = self.text.split_at(digits_in_front(self.text));
        self.text = after;
        number_token(digits)
    }

    fn size_hint(&self) -> (usize, Option<usize>) {
        (0, None)
    }

    ghost lawful = { lawful_listing (λ s. tokens_of s.text.now) };
}

// The sum of the terms so far, and the product of the factors so far of the term at hand.
#[derive(Clone, Copy)]
pub(crate) struct Level {
    sum: u64,
    product: u64,
}

impl Level {
    fn value(self) -> u64
        ensures { result ≡ level_value self }
    {
        self.sum.wrapping_add(self.product)
    }

    fn times(self, factor: u64) -> Level
        ensures { result ≡ with_factor self factor }
    {
        Level {
            sum: self.sum,
            product: self.product.wrapping_mul(factor),
        }
    }
}

pub(crate) const EMPTY: Level = Level { sum: 0, product: 1 };

// What tokens came to: the levels outside the parentheses that are open, the level at hand, and whether a number or an opening parenthesis is to come.
#[derive(Drop)]
pub(crate) struct Calculation {
    pub(crate) outside: Vec<Level>,
    pub(crate) level: Level,
    pub(crate) is_begun: bool,
}

impl Calculation {
    pub(crate) fn after(mut self, token: Token) -> Result<Calculation, TextFault>
        ensures value { MatchResult result
            (λ c. after_token (reverse self.outside.items, self.level, self.is_begun) token
            ≡ Ok (reverse c.outside.items, c.level, c.is_begun))
            (λ e. e ≢ TextFault.Memory
            → after_token (reverse self.outside.items, self.level, self.is_begun) token ≡ Err e) }

        // An allocation may fail at an opening parenthesis alone, if the levels outside fill their vector.
        ensures memory { result ≡ Err TextFault.Memory → (token ≡ Token.Open)
            × (self.is_begun ≡ true) × (vec_capacity self.outside ≤ vec_len self.outside) }
        ensures capacity { IfOk result (λ c. vec_capacity self.outside ≤ vec_capacity c.outside) }
    {
        match (token, self.is_begun) {
            (Token::Number(number), true) => {
                self.level = self.level.times(number);
                self.is_begun = false;
            }
            (Token::Open, true) => {
                // No memory: a push fails only if an allocation does.
                if self.outside.push(self.level).is_err() {
                    return Err(TextFault::Memory);
                }
                self.level = EMPTY;
            }
            (Token::Plus, false) => {
                self.level = Level {
                    sum: self.level.value(),
                    product: 1,
                };
                self.is_begun = true;
            }
            (Token::Minus, false) => {
                self.level = Level {
                    sum: self.level.value(),
                    product: u64::MAX,
                };
                self.is_begun = true;
            }
            (Token::Times, false) => self.is_begun = true,
            (Token::Close, false) => {
                let Some(outer) = self.outside.pop() else {
                    return Err(TextFault::Unexpected);
                };
                self.level = outer.times(self.level.value());
            }
            _ => return Err(TextFault::Unexpected),
        }
        Ok(self)
    }

    pub(crate) fn end(self) -> Result<u64, TextFault>
        ensures { result ≡ value_at_end (reverse self.outside.items, self.level, self.is_begun) }
    {
        if self.is_begun || !self.outside.is_empty() {
            return Err(TextFault::Unexpected);
        }
        Ok(self.level.value())
    }
}

/// The value of tokens of numbers, `+`, `-`, `*` and parentheses, modulo 2 ^ 64. It draws up to `Ok(None)` or the first failure, which is returned then. It fails with `Unexpected` at a token that may not stand there, and with `Memory` at an opening parenthesis if an allocation fails: only if as many are open as the vector of those has room for.
///
/// Requires that `next` may be called on the source, and that it is finite.
pub fn value_of<I: FallibleIterator<Item = Token, Error = TextFault>>(
    alloc: Global,
    mut tokens: I,
) -> Result<u64, TextFault>
where
    requires can_next { I.contract.can_next tokens }
    requires finite { I.contract.is_finite tokens }
    ensures value { (l : List (Result Token TextFault)) → Lists I.contract.steps tokens l
        → result ≢ Err TextFault.Memory → result ≡ value_of_tokens l }
    ensures room { (l : List (Result Token TextFault)) → Lists I.contract.steps tokens l
        → IsValueInRoom l result }
{
    let mut left = tokens.number();
    let mut calculation = Calculation {
        outside: Vec::new(alloc),
        level: EMPTY,
        is_begun: true,
    };
    while let Some(token) = tokens.draw()? {
        left = left.one_less();
        calculation = calculation.after(token)?;
    }
    calculation.end()
}

/// What is written of a sum, a difference or a product, with the parentheses that it needs and any others, has its value.
pub fn law_written()
    ensures { (e : Expression)
        → value_of_tokens (items (written as_sum e)) ≡ Ok (expression_value e) }
{}

/// The value of a text of numbers, `+`, `-`, `*` and parentheses, modulo 2 ^ 64. It draws up to the first fault. It fails with `Unknown` at what is no token, with `Unexpected` at a token that may not stand there, and with `Memory` at an opening parenthesis if an allocation fails: only if as many are open as the vector of those has room for. `evaluate(alloc, "2+3*(4+10)*2")` is `Ok(86)`.
pub fn evaluate(alloc: Global, text: &str) -> Result<u64, TextFault>
    ensures value { result ≢ Err TextFault.Memory
        → result ≡ value_of_tokens (tokens_of text.now) }
    ensures written { (e : Expression) → tokens_of text.now ≡ items (written as_sum e)
        → result ≢ Err TextFault.Memory → result ≡ Ok (expression_value e) }
    ensures room { IsValueInRoom (tokens_of text.now) result }
{
    law_written();
    value_of(alloc, Tokens::new(text.as_bytes()))
}
