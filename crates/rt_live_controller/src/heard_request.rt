use rt_lists::Text;
use rt_model::ReplyStatus;

/// A request that was handled.
#[derive(Drop)]
pub struct HeardRequest {
    /// Its text.
    pub request: Text,
    pub answer: HeardAnswer,
}

/// How a request was handled.
#[derive(Drop)]
pub enum HeardAnswer {
    /// It was answered at once.
    Status(ReplyStatus),
    /// The job of this number is to answer it.
    Job(u64),
}
