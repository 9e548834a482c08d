//! Allocations, one of which fails.
use std::alloc::AllocError;
use std::cell::Cell;

/// Counts its allocations, and fails one of them.
#[derive(Debug, Drop)]
pub struct Requests {
    made: Cell<u32>,
    refused: Cell<u32>,
}

impl Requests {
    /// Fails allocation number `number`, from 0.
    pub fn refusing(number: u32) -> Requests {
        Requests {
            made: Cell::new(0),
            refused: Cell::new(number),
        }
    }

    /// Counts anew, and fails allocation number `number` from here on.
    pub fn refuse(&self, number: u32) {
        self.made.set(0);
        self.refused.set(number);
    }

    /// Counts anew, and fails none.
    pub fn refuse_none(&self) {
        self.refuse(u32::MAX);
    }

    /// One request.
    pub fn ask(&self) -> Result<(), AllocError> {
        let number = self.made.get();
        self.made.set(number.saturating_add(1));
        if number == self.refused.get() {
            Err(AllocError)
        } else {
            Ok(())
        }
    }

    /// How many were made.
    pub fn made(&self) -> u32 {
        self.made.get()
    }

    /// Whether the one that is to fail was made.
    pub fn met(&self) -> bool {
        self.refused.get() < self.made.get()
    }
}
