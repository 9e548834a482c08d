//! A JSON text without blanks, of its bytes.
ghost use Rattle.std.specs.Prelude.{◌≡◌, ◌≤◌, ℕ, ⊤, List, length};
ghost use Rattle.fallible_iterator.specs.Fault.TheVariants.{Source};
ghost use Rattle.fallible_json.specs.Json.{MakesJson, fault_before, fault_place, minified_text, wanted_at};
ghost use Rattle.fallible_json.specs.Minifying.{ComesFrom};
ghost use Rattle.fallible_json.specs.declared.fault.JsonFault.{JsonFault};

use crate::fault::{JsonFault, fault_at};
use crate::lexer::LexFault;
use crate::minifying::{Misplaced, minify};
use crate::place::place_of;
use crate::text::TextTokens;
use crate::wanted::Wanted;
use fallible_iterator::Fault;
use std::alloc::Global;
use std::convert::Infallible;
use std::str::from_utf8;

// How many bytes come before that at which a fault was met.
pub(crate) fn fault_place(text: &[u8], fault: Misplaced<LexFault<Infallible>>) -> usize
    ensures { result ≡ fault_place text.now fault }
{
    match fault {
        Misplaced::Source(LexFault::Source(never)) => match never {},
        Misplaced::Source(LexFault::Unknown(place)) => place,
        Misplaced::Source(LexFault::Unfinished(last, _)) => {
            if last < text.len() {
                last + 1
            } else {
                text.len()
            }
        }
        Misplaced::Unexpected(place) => place,
        Misplaced::Ended => text.len(),
    }
}

// What could come at a fault, where these tokens may.
pub(crate) fn wanted_at(fault: Misplaced<LexFault<Infallible>>, tokens: Wanted) -> Wanted
    ensures { result ≡ wanted_at fault tokens }
{
    match fault {
        Misplaced::Source(LexFault::Unfinished(_, within)) => within,
        _ => tokens,
    }
}

// The bytes of the tokens of a text, or its first fault.
fn minified_text(alloc: Global, text: &[u8]) -> Result<Vec<u8>, Fault<JsonFault>>
    ensures { ComesFrom (minified_text text.now) result }
{
    match minify(alloc, text, TextTokens::new(text)) {
        Ok(json) => Ok(json),
        Err(Fault::Source((fault, tokens))) => {
            let wanted = wanted_at(fault, tokens);
            Err(Fault::Source(fault_at(text, fault_place(text, fault), wanted)))
        }
        Err(Fault::Memory(refused)) => Err(Fault::Memory(refused)),
    }
}

// The first fault of bytes that are UTF-8 up to a place, and no further: that of a byte before it, or that place. The text before it is read for that, and an allocation may fail.
fn fault_before(alloc: Global, bytes: &[u8], place: usize) -> Fault<JsonFault>
    requires { place ≤ length bytes.now }
    ensures { (fault : JsonFault) → result ≡ Source fault → fault ≡ fault_before bytes.now place }
{
    let (line, column) = place_of(bytes, place);
    let not_text = Fault::Source(JsonFault::NotText(line, column));
    match minified_text(alloc, &bytes[..place]) {
        Ok(_) => not_text,
        Err(Fault::Source(fault)) => match fault {
            JsonFault::Unexpected(line, column, byte, wanted) => {
                Fault::Source(JsonFault::Unexpected(line, column, byte, wanted))
            }
            JsonFault::Ended(_, _, _) => not_text,
            JsonFault::NotText(_, _) => not_text,
        },
        Err(Fault::Memory(refused)) => Fault::Memory(refused),
    }
}

/// Something that makes JSON texts in memory.
pub trait MakeJson {
    // It was refused the memory for the text without blanks that these bytes are, or for the containers that they open.
    ghost refused: { Self → List ℕ → Type 0 };

    /// A JSON text of RFC 8259 without the blanks between its tokens: the bytes of the tokens, one after the other, as they stand in the text. Or its first fault: the first byte with which no token goes on, the first token that may not stand where it stands, the first byte that is no UTF-8, or the end where a token is missing. It fails with `Fault::Memory` if an allocation fails.
    fn json_of(&self, text: &[u8]) -> Result<Vec<u8>, Fault<JsonFault>>
        ensures { MakesJson (refused self.now) text.now result };
}

impl MakeJson for Global {
    // Std says of no request that it is granted.
    ghost refused = { λ _ _. ⊤ };

    fn json_of(&self, text: &[u8]) -> Result<Vec<u8>, Fault<JsonFault>> {
        match from_utf8(text) {
            Ok(_) => minified_text(*self, text),
            Err(e) => Err(fault_before(*self, text, e.valid_up_to())),
        }
    }
}
