use rt_call_queries::Asked;
use rt_call_schemas::Tables;
use rt_call_segments::HeldSegments;
use rt_deep::MemoryDeep;
use rt_store::MemoryStore;
use rt_stream::StreamLog;
use std::alloc::Global;

/// What lines leave to later ones.
pub(crate) struct Session {
    pub(crate) tables: Tables,
    pub(crate) segments: HeldSegments,
    pub(crate) asked: Asked,
    pub(crate) store: Option<MemoryStore>,
    pub(crate) deep: MemoryDeep,
    pub(crate) stream: Option<StreamLog>,
}

// Written out: whoever drops a session calls this, and its proof needs nothing of the fields.
impl Drop for Session {
    fn drop(self) {
        let Session {
            tables: _,
            segments: _,
            asked: _,
            store: _,
            deep: _,
            stream: _,
        } = self;
    }
}

impl Session {
    /// No line was read yet.
    pub(crate) fn new(alloc: Global) -> Session {
        Session {
            tables: Tables::new(alloc),
            segments: HeldSegments::new(),
            asked: Asked::new(alloc),
            store: None,
            deep: MemoryDeep::make(alloc),
            stream: None,
        }
    }
}
