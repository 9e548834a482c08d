//! An error type of one's own, which a collection's faults become.
ghost use Rattle.std.specs.Prelude.{◌≡◌, ℕ, Ok, Err, IfOk, length};
ghost use Rattle.fallible_iterator.specs.Fault.{Fault};
ghost use Rattle.fallible_iterator.specs.Lists.{collected, on_value, results};
ghost use Rattle.example_by_hand.specs.declared.faults.ReadingFault.{ReadingFault};
ghost use Rattle.std.specs.declared.alloc.AllocError.{AllocError};

use fallible_iterator::{FallibleIterator, Fault, convert};
use std::alloc::Global;

/// Why readings were not read.
#[derive(Clone, Copy, Debug, PartialEq, Eq)]
pub enum ReadingFault {
    /// A reading failed, with this code.
    Failed(u8),
    /// An allocation failed.
    Memory,
}

impl From<Fault<u8>> for ReadingFault {
    ghost from_gives = { λ fault why. ((code : ℕ) → fault ≡ Fault.Source code
        → why ≡ ReadingFault.Failed code)
        × ((refused : AllocError) → fault ≡ Fault.Memory refused → why ≡ ReadingFault.Memory) };

    /// `ReadingFault::Failed` of a failure, and `ReadingFault::Memory` of an allocation failure
    fn from(fault: Fault<u8>) -> ReadingFault {
        match fault {
            Fault::Source(code) => ReadingFault::Failed(code),
            Fault::Memory(_) => ReadingFault::Memory,
        }
    }
}

/// How many readings there are, which are collected, or the first failure.
pub fn read_all(alloc: Global, readings: Vec<Result<u32, u8>>) -> Result<usize, ReadingFault>
    ensures value { IfOk result (λ n. Ok n ≡ on_value (collected (results readings.items))
        (λ xs. Ok (length xs))) }
    ensures failure { (code : ℕ) → result ≡ Err (ReadingFault.Failed code)
        → collected (results readings.items) ≡ Err code }
{
    let all: Vec<u32> = convert(readings.into_iter()).collect(alloc)?;
    Ok(all.len())
}
