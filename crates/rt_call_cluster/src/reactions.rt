use rt_call_words::{Answer, Stop};
use rt_model::{Reaction, ReplyStatus, Said};
use rt_msgs::status_text;
use std::alloc::Global;

/// Adds what a machine answers, as reports name it, or what it starts.
pub(crate) fn write_reaction(
    alloc: Global,
    reaction: Reaction,
    answer: &mut Answer,
) -> Result<(), Stop> {
    match reaction {
        Reaction::Answer(said) => answer.add(status_text(alloc, &status_of(said))?.as_str()),
        Reaction::StartCommit(offset) => {
            answer.add("commitJob ");
            answer.number(offset.0);
        }
        Reaction::StartOffline => answer.add("offlineJob"),
    }
    Ok(())
}

// What a machine says, as an answer.
fn status_of(said: Said) -> ReplyStatus {
    match said {
        Said::Hold => ReplyStatus::Hold,
        Said::CatchUp(offset) => ReplyStatus::CatchUp(offset),
        Said::Commit(offset) => ReplyStatus::Commit(offset),
        Said::CommitContinue => ReplyStatus::CommitContinue,
        Said::Processed => ReplyStatus::Processed,
        Said::Failed(cause) => ReplyStatus::Failed(cause),
    }
}
