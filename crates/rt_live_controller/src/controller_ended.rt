use crate::ControllerDid;
use rt_controller::Controller;
use rt_diary::Diary;
use rt_ground::{Caller, Naming};
use rt_link::{Inbox, Post};
use rt_lists::Items;
use rt_live_output::Heard;

/// A controller's node that has ended.
#[derive(Drop)]
pub struct ControllerEnded<R, J: Naming> {
    pub number: u32,
    pub controller: Controller,
    pub caller: Caller<R, J>,
    /// What it did, for contracts alone.
    pub diary: Diary<ControllerDid>,
    pub inbox: Inbox,
    /// Its posts, one to each server.
    pub posts: Vec<Post>,
    /// What it heard; none where no journal was kept, or memory ran out for it.
    pub heard: Option<Items<Heard>>,
}
