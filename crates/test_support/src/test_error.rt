//! An error that want of memory becomes, which the tests fail with.
use std::alloc::AllocError;

/// A number, or want of memory.
#[derive(Clone, Debug, PartialEq, Eq, Drop)]
pub enum TestError {
    /// a number that tells failures apart
    Number(u32),
    /// what a failed allocation becomes
    Memory,
}

impl From<AllocError> for TestError {
    fn from(_refused: AllocError) -> TestError {
        TestError::Memory
    }
}
