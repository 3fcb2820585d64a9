/// What came of a step of a rehearsal.
#[derive(Clone, Copy, Debug, PartialEq, Eq)]
pub enum Stepped {
    /// The number of the state that it went on to, and of the plan's steps.
    At { state: u64, steps: u64 },
    /// It didn't go on, by the number of the refusal.
    Refused(u32),
}
