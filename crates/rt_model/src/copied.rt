use crate::{
    Commit, IdealEntry, IdealState, Listed, Node, Reply, ReplyStatus, Request, RequestKind, Seen,
    SeenMeta, SegMeta, Setup, Status,
};
use rt_lists::Copied;
use std::alloc::{AllocError, Global};

impl Copied for IdealEntry {
    fn copied(&self, _alloc: Global) -> Result<Self, AllocError> {
        Ok(*self)
    }
}

impl Copied for IdealState {
    fn copied(&self, alloc: Global) -> Result<Self, AllocError> {
        Ok(IdealState {
            entries: self.entries.copied(alloc)?,
        })
    }
}

impl Copied for Commit {
    fn copied(&self, alloc: Global) -> Result<Self, AllocError> {
        Ok(Commit {
            end: self.end,
            path: self.path.copy(alloc)?,
            digest: self.digest,
            rows: self.rows,
        })
    }
}

impl Copied for Status {
    fn copied(&self, alloc: Global) -> Result<Self, AllocError> {
        match self {
            Status::InProgress => Ok(Status::InProgress),
            Status::Done(commit) => Ok(Status::Done(commit.copied(alloc)?)),
            Status::Abandoned => Ok(Status::Abandoned),
        }
    }
}

impl Copied for SegMeta {
    fn copied(&self, alloc: Global) -> Result<Self, AllocError> {
        Ok(SegMeta {
            name: self.name.copy(alloc)?,
            start: self.start,
            status: self.status.copied(alloc)?,
            written: self.written,
        })
    }
}

impl Copied for SeenMeta {
    fn copied(&self, alloc: Global) -> Result<Self, AllocError> {
        Ok(SeenMeta {
            version: self.version,
            meta: self.meta.copied(alloc)?,
        })
    }
}

impl Copied for Listed {
    fn copied(&self, alloc: Global) -> Result<Self, AllocError> {
        Ok(Listed {
            sequence: self.sequence,
            seen: self.seen.copied(alloc)?,
        })
    }
}

impl Copied for Node {
    fn copied(&self, alloc: Global) -> Result<Self, AllocError> {
        match self {
            Node::Meta(meta) => Ok(Node::Meta(meta.copied(alloc)?)),
            Node::Ideal(state) => Ok(Node::Ideal(state.copied(alloc)?)),
            Node::Boot => Ok(Node::Boot),
            Node::Gone => Ok(Node::Gone),
        }
    }
}

impl Copied for Seen {
    fn copied(&self, alloc: Global) -> Result<Self, AllocError> {
        Ok(Seen {
            key: self.key,
            version: self.version,
            node: self.node.copied(alloc)?,
        })
    }
}

impl Copied for RequestKind {
    fn copied(&self, alloc: Global) -> Result<Self, AllocError> {
        match self {
            RequestKind::Consumed(reason) => Ok(RequestKind::Consumed(*reason)),
            RequestKind::Stopped => Ok(RequestKind::Stopped),
            RequestKind::CommitStart => Ok(RequestKind::CommitStart),
            RequestKind::Upload { path, bytes } => Ok(RequestKind::Upload {
                path: path.copy(alloc)?,
                bytes: bytes.copy(alloc)?,
            }),
            RequestKind::CommitEnd { path } => Ok(RequestKind::CommitEnd {
                path: path.copy(alloc)?,
            }),
            RequestKind::Extend { millis } => Ok(RequestKind::Extend { millis: *millis }),
        }
    }
}

impl Copied for Request {
    fn copied(&self, alloc: Global) -> Result<Self, AllocError> {
        Ok(Request {
            number: self.number,
            partition: self.partition,
            sequence: self.sequence,
            offset: self.offset,
            kind: self.kind.copied(alloc)?,
        })
    }
}

impl Copied for ReplyStatus {
    fn copied(&self, alloc: Global) -> Result<Self, AllocError> {
        match self {
            ReplyStatus::Hold => Ok(ReplyStatus::Hold),
            ReplyStatus::CatchUp(target) => Ok(ReplyStatus::CatchUp(*target)),
            ReplyStatus::Keep(seen) => Ok(ReplyStatus::Keep(seen.copied(alloc)?)),
            ReplyStatus::Discard => Ok(ReplyStatus::Discard),
            ReplyStatus::Commit(offset) => Ok(ReplyStatus::Commit(*offset)),
            ReplyStatus::NotLeader => Ok(ReplyStatus::NotLeader),
            ReplyStatus::CommitContinue => Ok(ReplyStatus::CommitContinue),
            ReplyStatus::UploadSuccess(path) => Ok(ReplyStatus::UploadSuccess(path.copy(alloc)?)),
            ReplyStatus::CommitSuccess(seen) => Ok(ReplyStatus::CommitSuccess(seen.copied(alloc)?)),
            ReplyStatus::Processed => Ok(ReplyStatus::Processed),
            ReplyStatus::Failed(cause) => Ok(ReplyStatus::Failed(*cause)),
        }
    }
}

impl Copied for Reply {
    fn copied(&self, alloc: Global) -> Result<Self, AllocError> {
        Ok(Reply {
            number: self.number,
            partition: self.partition,
            sequence: self.sequence,
            status: self.status.copied(alloc)?,
        })
    }
}

impl Copied for Setup {
    fn copied(&self, alloc: Global) -> Result<Self, AllocError> {
        Ok(Setup {
            schema: self.schema.copied(alloc)?,
            table: self.table.copied(alloc)?,
            servers: self.servers,
            controllers: self.controllers,
            partitions: self.partitions,
            start: self.start,
            grace: self.grace,
            retention: self.retention,
            format: self.format,
        })
    }
}
