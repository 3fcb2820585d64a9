use rt_broker::PieceGiven;
use rt_front::Front;
use rt_ground::{Caller, Naming};
use rt_lists::Items;
use rt_model::Answer;

/// What a broker leaves when it has ended.
#[derive(Drop)]
pub struct BrokerEnded<R, J: Naming> {
    pub caller: Caller<R, J>,
    /// A front of what each server was asked, by the server's number.
    pub feeds: Vec<Front<PieceGiven>>,
    /// The first answers, in the order of the queries; none where there is no journal.
    pub mids: Items<Answer>,
    /// The answers that leave nothing out, in the order of the queries.
    pub answers: Items<Answer>,
}
