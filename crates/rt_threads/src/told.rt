use rt_base::{Instance, Offset, Partition};
use rt_deep::DeepStore;
use rt_ground::{Caller, Naming};
use rt_model::Key;
use rt_store::Store;
use rt_stream::{Feed, Messages};
use std::alloc::{AllocError, Global};
use std::sync::Wait;

/// What a caller that writes nothing has read.
#[derive(Clone, Copy, Drop)]
pub struct Told {
    /// The version of the boot node of server 0.
    pub version: u64,
    /// How many files stand at the paths of the turns, each with its turn's byte.
    pub files: u64,
    /// How many messages stand at the offsets of the turns, each with its turn's byte.
    pub messages: u64,
    /// How many reads found an earlier version than the read before.
    pub backwards: u64,
}

impl Told {
    /// Nothing was read yet.
    pub fn nothing() -> Told {
        Told {
            version: 0,
            files: 0,
            messages: 0,
            backwards: 0,
        }
    }

    /// Reads the version of the boot node.
    pub fn read_version<S: Store>(&mut self, alloc: Global, store: &mut S) {
        if let Ok(seen) = store.read(alloc, Key::Boot(Instance(0))) {
            if seen.version < self.version {
                self.backwards = self.backwards.saturating_add(1);
            }
            self.version = seen.version;
        }
    }

    /// Counts the files and the messages of so many turns.
    pub fn count<R: Wait + Copy, J: Naming>(
        &mut self,
        alloc: Global,
        caller: &mut Caller<R, J>,
        turns: u8,
    ) {
        for turn in 0..turns {
            if has_file(alloc, &mut caller.deep, turn) {
                self.files = self.files.saturating_add(1);
            }
        }
        if let Ok(messages) = caller.stream.fetch(alloc, Partition(0), Offset(0), 1000) {
            self.messages = in_turn(&messages);
        }
    }
}

/// Whether the file of a turn has its byte.
fn has_file<D: DeepStore>(alloc: Global, deep: &mut D, turn: u8) -> bool {
    let Ok(path) = path_of(alloc, turn) else {
        return false;
    };
    match deep.get(alloc, path.as_str()) {
        Ok(bytes) => bytes.as_slice() == [turn].as_slice(),
        Err(_) => false,
    }
}

/// The path of a turn's file.
pub fn path_of(alloc: Global, turn: u8) -> Result<String, AllocError> {
    format!(in alloc; "turn {turn}")
}

/// How many of the messages have the byte of the turn that their place names.
fn in_turn(messages: &Messages) -> u64 {
    let mut count = 0u64;
    let mut turn = 0u8;
    for place in 0..messages.len() {
        if messages.get(place) == [turn].as_slice() {
            count = count.saturating_add(1);
        }
        turn = turn.wrapping_add(1);
    }
    count
}
