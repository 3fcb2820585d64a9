use crate::did::ServerDid;
use crate::pieces::PieceKeeper;
use rt_diary::Diary;
use rt_ground::{Caller, Naming};
use rt_link::{Inbox, Post};
use rt_server::Server;

/// A server that has ended, and all that its seat had.
#[derive(Drop)]
pub struct ServerEnded<R, J: Naming> {
    /// Its number among the servers.
    pub number: u32,
    pub server: Server,
    /// Whether it was up.
    pub up: bool,
    pub caller: Caller<R, J>,
    pub diary: Diary<ServerDid>,
    pub inbox: Inbox,
    /// A post to each controller, by its number.
    pub posts: Vec<Post>,
    pub pieces: PieceKeeper,
}
