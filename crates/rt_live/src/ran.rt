use rt_base::Offset;
use rt_ground::{Caller, Naming};

/// What the nodes of a cluster have come to.
#[derive(Drop)]
pub struct Ran<R, J: Naming> {
    /// The end up to which each partition is committed, which is the number of its messages.
    pub ends: Vec<Offset>,
    /// The one caller into which those of all nodes were met. It shows all that there is.
    pub caller: Caller<R, J>,
    /// The answers, the ends and, where it was asked for, the journal, as they are printed.
    pub text: String,
}
