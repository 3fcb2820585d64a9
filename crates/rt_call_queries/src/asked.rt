use rt_agg::Groups;
use std::alloc::Global;
use std::mem;

/// What lines about queries leave to later ones.
pub struct Asked {
    /// The last query's text.
    pub(crate) query: String,
    /// What was scanned since the query.
    pub(crate) groups: Option<Groups>,
}

// Written out: whoever drops what was asked calls this, and its proof needs nothing of the fields.
impl Drop for Asked {
    fn drop(self) {
        let Asked {
            query: _,
            groups: _,
        } = self;
    }
}

impl Asked {
    /// No query was read yet.
    pub fn new(alloc: Global) -> Asked {
        Asked {
            query: String::new(alloc),
            groups: None,
        }
    }

    /// Keeps a query's text; nothing was scanned since.
    pub(crate) fn begin(&mut self, query: String) {
        drop(mem::replace(&mut self.query, query));
        drop(mem::replace(&mut self.groups, None));
    }

    /// Keeps what was scanned.
    pub(crate) fn keep(&mut self, groups: Groups) {
        drop(mem::replace(&mut self.groups, Some(groups)));
    }
}
