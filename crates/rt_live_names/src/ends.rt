use std::sync::atomic::{AtomicBool, AtomicU64, Ordering};

/// What tells the nodes of a run that it ends. Nothing is promised of it: it serves the nodes' choice of what to do next.
#[derive(Drop)]
pub struct Ends {
    appended: AtomicBool,
    answered: AtomicBool,
    refused: AtomicBool,
    stopped: AtomicU64,
}

impl Ends {
    /// Nothing has ended yet.
    pub fn new() -> Ends {
        Ends {
            appended: AtomicBool::new(false),
            answered: AtomicBool::new(false),
            refused: AtomicBool::new(false),
            stopped: AtomicU64::new(0),
        }
    }

    /// All rows of the input were appended.
    pub fn append_all(&self) {
        self.appended.store(true, Ordering::SeqCst);
    }

    /// Whether all rows of the input were appended.
    pub fn all_appended(&self) -> bool {
        self.appended.load(Ordering::SeqCst)
    }

    /// All queries were answered.
    pub fn answer_all(&self) {
        self.answered.store(true, Ordering::SeqCst);
    }

    /// Memory ran out in a node.
    pub fn refuse(&self) {
        self.refused.store(true, Ordering::SeqCst);
    }

    /// Whether memory ran out in a node.
    pub fn is_refused(&self) -> bool {
        self.refused.load(Ordering::SeqCst)
    }

    /// Whether a node is to post nothing more: all queries were answered, or memory ran out.
    pub fn is_closing(&self) -> bool {
        self.answered.load(Ordering::SeqCst) || self.is_refused()
    }

    /// A node posts nothing more.
    pub fn stop(&self) {
        let _before = self.stopped.fetch_add(1, Ordering::SeqCst);
    }

    /// Whether so many nodes post nothing more: what they posted can then be drained.
    pub fn have_stopped(&self, nodes: u64) -> bool {
        self.stopped.load(Ordering::SeqCst) >= nodes
    }
}
