use crate::RepairerDid;
use rt_diary::Diary;
use rt_ground::{Caller, Naming};
use rt_repair::Repair;

/// The repairer's node that has ended.
#[derive(Drop)]
pub struct RepairerEnded<R, J: Naming> {
    /// The repair that was under way, or the last one.
    pub repair: Option<Repair>,
    pub caller: Caller<R, J>,
    /// What it did, for contracts alone.
    pub diary: Diary<RepairerDid>,
}
