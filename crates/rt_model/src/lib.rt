//! The plain data that the nodes speak of, and the definitions that several crates cite, with their laws.
#![tactic(auto)]

mod answer;
mod asked;
mod commit;
mod completion;
mod copied;
mod decision;
mod ideal_state;
mod job_step;
mod laws;
mod machine_state;
mod node;
mod piece;
mod predicate;
mod query;
mod query_parts;
mod replica_state;
mod reply;
mod reporter;
mod request;
mod seg_meta;
mod sent;
mod setup;
mod status;

pub use answer::{Answer, Cell, ResultRow};
pub use asked::Asked;
pub use commit::Commit;
pub use completion::{Ask, Reaction, Said};
pub use decision::Decision;
pub use ideal_state::{IdealEntry, IdealState, Mode};
pub use job_step::{JobStep, StepName, StepOutcome};
pub use laws::{
    a_lawful_write_keeps_a_history_lawful, a_retirement_deletes_lawfully,
    a_retirement_removes_lawfully, an_ended_node_changes_by_its_deletion_alone,
    an_older_ideal_state_is_no_witness, deletions_go_upwards, done_ranges_tile_the_offsets,
    entries_ascend, entries_cover_an_unbroken_run, entries_have_passed_deleted_segments,
    every_entry_has_its_node, every_front_is_lawful, every_node_has_one_life,
    every_partition_has_an_entry, every_partition_has_its_chain,
    every_server_starts_with_its_boot_node, lawful_nodes_are_in_order, marks_never_fall,
    no_starting_node_is_done, runs_of_entries_only_rise, the_listed_segments_are_one_run,
    the_starting_contents_are_lawful, there_is_always_an_ideal_state, versions_count_writes,
};
pub use machine_state::MachineState;
pub use node::{Key, Listed, Node, Seen};
pub use piece::Piece;
pub use predicate::{Condition, Predicate};
pub use query::Query;
pub use query_parts::{Aggregate, ColumnAt, Comparison, Item, Literal, OrderKey};
pub use replica_state::ReplicaState;
pub use reply::{FailCause, Reply, ReplyStatus};
pub use reporter::Reporter;
pub use request::{Reason, Request, RequestKind, RequestNumber};
pub use seg_meta::{SeenMeta, SegMeta};
pub use sent::Sent;
pub use setup::Setup;
pub use status::Status;
