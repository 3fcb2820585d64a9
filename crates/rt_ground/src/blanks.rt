use crate::appended::Appended;
use rt_deep::DeepPut;
use rt_front::Blank;
use rt_model::Seen;
use std::alloc::{AllocError, Global};

/// The names of the three histories of a ground that is to be founded. Contracts see it as these names.
#[derive(Drop)]
pub struct Blanks {
    pub store: Blank<Seen>,
    pub deep: Blank<DeepPut>,
    pub stream: Blank<Appended>,
}

impl Blanks {
    /// Names that no other ground has.
    pub fn new(alloc: Global) -> Result<Blanks, AllocError> {
        Ok(Blanks {
            store: Blank::new(alloc)?,
            deep: Blank::new(alloc)?,
            stream: Blank::new(alloc)?,
        })
    }
}
