//! Repeatable random bytes (xorshift64*). The second program draws the same ones, so the generator is part of what the
//! vectors mean.
use std::alloc::{AllocError, Global};

#[derive(Drop)]
pub struct Random {
    state: u64,
}

const START: u64 = 0x0123_4567_89ab_cdef;

impl Random {
    /// The generator of a group of cases, by the group's number.
    pub fn of_group(number: u8) -> Self {
        Random {
            state: START.wrapping_add(u64::from(number)),
        }
    }

    /// A byte is the top of one number drawn, where the bits are mixed best.
    fn byte(&mut self) -> u8 {
        let a = self.state ^ (self.state >> 12);
        let b = a ^ (a << 25);
        let c = b ^ (b >> 27);
        self.state = c;
        (c.wrapping_mul(0x2545_f491_4f6c_dd1d) >> 56) as u8
    }

    pub fn bytes(&mut self, heap: Global, count: usize) -> Result<Vec<u8>, AllocError> {
        (0..count).map(|_| self.byte()).collect(heap)
    }
}
