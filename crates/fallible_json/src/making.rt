//! What takes JSON texts, and has the memory for them.
ghost use Rattle.std.specs.Prelude.{◌≡◌, ◌*◌, ◌<◌, ◌≤◌, ⊤, Err, IfOk, OnErr, OnOk, length, take};
ghost use Rattle.fallible_iterator.specs.Fault.TheVariants.{Memory, Source};
ghost use Rattle.fallible_json.specs.Taking.{BeginWithLeft, FindsFault, FindsLastFault, Fits, Takes, TakesAll};
ghost use Rattle.fallible_json.specs.declared.fault.JsonFault.{JsonFault};
ghost use Rattle.std.specs.declared.alloc.AllocError.{AllocError};

use crate::fault::JsonFault;
use crate::texts::Texts;
use fallible_iterator::Fault;
use std::alloc::{AllocError, Global};

// How many bytes a buffer has at first.
const BUFFER: usize = 65536;

/// Something that makes JSON texts in memory, a part at a time.
pub trait MakeTexts {
    // It was refused memory.
    ghost refused: { Self → Type 0 };

    /// Takes what no further byte could change. How many of the bytes that is; or the first fault.
    ///
    /// Requires that each count of the texts has room for twice as many bytes, and that these begin with what the last call left.
    fn push(&self, texts: &mut Texts, bytes: &[u8]) -> Result<usize, Fault<JsonFault>>
        requires fits { Fits texts.old (2 * length bytes.now) }
        requires left { BeginWithLeft texts.old.seen bytes.now }
        ensures taken { IfOk result (λ taken. Takes texts.old bytes.now taken texts.new) }
        ensures fault { (fault : JsonFault) → result ≡ Err (Source fault)
            → FindsFault texts.old bytes.now fault texts.new }
        ensures memory { (error : AllocError) → result ≡ Err (Memory error) → refused self.now };

    /// Takes the last bytes, and ends the text that is begun; or the first fault.
    ///
    /// Requires that each count of the texts has room for twice as many bytes.
    fn finish(&self, texts: &mut Texts, bytes: &[u8]) -> Result<(), Fault<JsonFault>>
        requires { Fits texts.old (2 * length bytes.now) }
        ensures all { OnOk result (TakesAll texts.old bytes.now texts.new) }
        ensures fault { (fault : JsonFault) → result ≡ Err (Source fault)
            → FindsLastFault texts.old bytes.now fault texts.new }
        ensures memory { (error : AllocError) → result ≡ Err (Memory error) → refused self.now };

    /// Makes room in a buffer after the first `held` bytes, which stay.
    fn widen(&self, buffer: &mut Vec<u8>, held: usize) -> Result<(), AllocError>
        requires { held ≤ length buffer.old.items }
        ensures room { OnOk result (held < length buffer.new.items) }
        ensures same { take held buffer.new.items ≡ take held buffer.old.items }
        ensures memory { OnErr result (refused self.now) };
}

impl MakeTexts for Global {
    // Std says of no request that it is granted.
    ghost refused = { λ _. ⊤ };

    fn push(&self, texts: &mut Texts, bytes: &[u8]) -> Result<usize, Fault<JsonFault>> {
        texts.push(bytes)
    }

    fn finish(&self, texts: &mut Texts, bytes: &[u8]) -> Result<(), Fault<JsonFault>> {
        texts.finish(bytes)
    }

    fn widen(&self, buffer: &mut Vec<u8>, held: usize) -> Result<(), AllocError> {
        if held < buffer.len() {
            return Ok(());
        }
        let more = if held < BUFFER { BUFFER } else { held };
        match buffer.resize(held.saturating_add(more), 0) {
            Ok(()) => Ok(()),
            // No memory: a vector is resized unless an allocation fails.
            Err(_) => Err(AllocError),
        }
    }
}
