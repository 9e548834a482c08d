//! Bytes as text in base64, with padding.
ghost use Rattle.std.specs.Prelude.{◌≡◌, ◌<◌, ◌++◌, ℕ, List, MatchOption, MatchResult, length, vec_items};
ghost use Rattle.fallible_pg.specs.Base64.{base64, bytes_in, number_in, read_loosely, symbol, symbols_of};
ghost use Rattle.fallible_pg.specs.declared.sending.Unsent.TheVariants.{Memory};

use crate::sending::Unsent;
use std::alloc::Global;

// The symbol of a number below 64.
fn symbol(n: u8) -> u8
    requires { n < 64 }
    ensures { result ≡ symbol n }
{
    if n < 26 {
        n + 65
    } else if n < 52 {
        n + 71
    } else if n < 62 {
        n - 4
    } else if n == 62 {
        b'+'
    } else {
        b'/'
    }
}

// The symbols of three bytes.
fn symbols_of(a: u8, b: u8, c: u8) -> [u8; 4]
    ensures { result ≡ symbols_of a b c }
{
    [
        symbol(a / 4),
        symbol(a % 4 * 16 + b / 16),
        symbol(b % 16 * 4 + c / 64),
        symbol(c % 64),
    ]
}

// Adds the symbols of fewer than three bytes, with equals signs after them.
fn push_last(text: &mut Vec<u8>, bytes: &[u8]) -> Result<(), Unsent>
    requires { length bytes.now < 3 }
    ensures { MatchResult result (λ _. text.new.items ≡ text.old.items ++ base64 bytes.now)
        (λ why. why ≡ Memory) }
{
    if bytes.is_empty() {
        return Ok(());
    }
    let a = bytes[0];
    if bytes.len() == 1 {
        text.extend_from_slice(&[symbol(a / 4), symbol(a % 4 * 16), b'=', b'='])?;
        return Ok(());
    }
    let b = bytes[1];
    text.extend_from_slice(&[
        symbol(a / 4),
        symbol(a % 4 * 16 + b / 16),
        symbol(b % 16 * 4),
        b'=',
    ])?;
    Ok(())
}

// Bytes in base64.
pub(crate) fn base64(alloc: Global, bytes: &[u8]) -> Result<Vec<u8>, Unsent>
    ensures { MatchResult result (λ text. vec_items text ≡ base64 bytes.now) (λ why. why ≡ Memory) }
{
    let mut text = Vec::new(alloc);
    let groups = bytes.len() / 3;
    for group in 0..groups {
        let place = 3 * group;
        let symbols = symbols_of(bytes[place], bytes[place + 1], bytes[place + 2]);
        text.extend_from_slice(&symbols)?;
    }
    push_last(&mut text, &bytes[3 * groups..])?;
    Ok(text)
}

// The number of a symbol; 63 of what is none.
fn number_of(symbol: u8) -> u8
    ensures { result ≡ number_in symbol }
{
    if 65 <= symbol && symbol < 91 {
        symbol - 65
    } else if 97 <= symbol && symbol < 123 {
        symbol - 71
    } else if 48 <= symbol && symbol < 58 {
        symbol + 4
    } else if symbol == b'+' {
        62
    } else {
        63
    }
}

// Adds the bytes that four symbols may stand for: one where two equals signs end them, two where one does.
fn push_bytes(bytes: &mut Vec<u8>, a: u8, b: u8, c: u8, d: u8) -> Result<(), Unsent>
    ensures { MatchResult result (λ _. bytes.new.items ≡ bytes.old.items ++ bytes_in a b c d)
        (λ why. why ≡ Memory) }
{
    let first = number_of(a) * 4 + number_of(b) / 16;
    let second = number_of(b) % 16 * 16 + number_of(c) / 4;
    let third = number_of(c) % 4 * 64 + number_of(d);
    if c == b'=' {
        bytes.extend_from_slice(&[first])?;
    } else if d == b'=' {
        bytes.extend_from_slice(&[first, second])?;
    } else {
        bytes.extend_from_slice(&[first, second, third])?;
    }
    Ok(())
}

// The bytes that a text may write in base64. Whether it does is for the caller to see.
fn read_loosely(alloc: Global, text: &[u8]) -> Result<Vec<u8>, Unsent>
    ensures { MatchResult result (λ bytes. vec_items bytes ≡ read_loosely text.now)
        (λ why. why ≡ Memory) }
{
    let mut bytes = Vec::new(alloc);
    for group in 0..text.len() / 4 {
        let place = 4 * group;
        push_bytes(
            &mut bytes,
            text[place],
            text[place + 1],
            text[place + 2],
            text[place + 3],
        )?;
    }
    Ok(bytes)
}

// The bytes that a text writes in base64, if it writes some.
pub(crate) fn from_base64(alloc: Global, text: &[u8]) -> Result<Option<Vec<u8>>, Unsent>
    ensures { MatchResult result (λ found. MatchOption found
        ((bytes : List ℕ) → ¬ (base64 bytes ≡ text.now))
        (λ bytes. base64 (vec_items bytes) ≡ text.now)) (λ why. why ≡ Memory) }
{
    let bytes = read_loosely(alloc, text)?;
    let again = base64(alloc, &bytes)?;
    if again.as_slice() == text {
        Ok(Some(bytes))
    } else {
        Ok(None)
    }
}
