/// What came of planning a rebalance.
#[derive(Clone, Copy, Debug, PartialEq, Eq)]
pub enum Planned {
    /// There is a plan: the number of its steps, and of the instances that come in them.
    Plan { steps: u64, moves: u64 },
    /// There is none, by the number of the refusal.
    Refused(u32),
}
