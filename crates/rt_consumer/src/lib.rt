//! What a replica of a consuming segment is, and its steps: it takes the stream's messages, is forced or stopped, seals its
//! rows, asks a controller, takes the answer, and is told of its segment's commit.
//!
//! That each step keeps what is true of every replica is shown above, where one is a value of its own.
#![tactic(auto)]

mod built_file;
mod consumer;
mod consuming;
mod next;
mod phase;
mod refused;
mod replies;
mod requests;
mod serving;
mod settings;
mod stage;
mod unsealed;
mod waited;

pub use built_file::BuiltFile;
pub use consumer::Consumer;
pub use next::{ReplicaDue, takes_messages};
pub use phase::{CommittedFile, Discarded, Phase};
pub use refused::ReplicaRefused;
pub use settings::Settings;
pub use stage::Stage;
pub use unsealed::Unsealed;
pub use waited::Waited;
