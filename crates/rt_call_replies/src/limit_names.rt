use rt_base::Which;
use rt_call_words::{Answer, Stop, Words};

/// `limits`: the names of all limits.
pub fn limits(words: &mut Words, answer: &mut Answer) -> Result<(), Stop> {
    words.ended()?;
    let limits = [
        Which::Input,
        Which::Partitions,
        Which::Servers,
        Which::Controllers,
        Which::Replication,
        Which::Message,
        Which::Events,
        Which::Sent,
        Which::Queries,
        Which::Stored,
        Which::Moment,
        Which::Rows,
    ];
    for (place, limit) in limits.iter().enumerate() {
        answer.part(place, " ");
        answer.add(limit.name());
    }
    Ok(())
}
