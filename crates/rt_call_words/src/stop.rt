use std::alloc::{AllocError, AllocFailed};

/// Why a line has no answer of its call.
#[derive(Clone, Copy, Debug)]
pub enum Stop {
    /// The line is outside the grammar.
    BadLine,
    /// What the call is given is outside what it asks for.
    Refused,
    /// Memory was refused.
    Memory,
}

impl From<AllocError> for Stop {
    fn from(_error: AllocError) -> Stop {
        Stop::Memory
    }
}

impl<T: Drop> From<AllocFailed<T>> for Stop {
    fn from(_error: AllocFailed<T>) -> Stop {
        Stop::Memory
    }
}
