ghost use Rattle.std.specs.Prelude.{◌≡◌, IfOk, string_bytes};
ghost use Rattle.rt_lines.specs.Fault.{reason_text};

use std::alloc::{AllocError, Global};

/// Why a script's line is refused. A number is that of the refusal of the text's own reader.
#[derive(Clone, Copy, Debug, PartialEq, Eq)]
pub enum LineReason {
    /// The line is outside the grammar, or a header line is missing.
    BadLine,
    /// The schema text is refused.
    Schema(u32),
    /// The table text is refused.
    Table(u32),
    /// The query text is refused.
    Query(u32),
    /// The message isn't there, or goes the other way; the job or the query isn't there, or has ended.
    NoSuchMessage,
    /// A server, a controller or a partition isn't below its count.
    NoSuchNode,
    /// The acting server or controller is down.
    NodeDown,
    /// The condition of the line isn't met.
    NothingToDo,
    /// The upsert settings are refused.
    Upsert(u32),
}

impl LineReason {
    /// The reason as a refusal prints it.
    pub fn text(self, alloc: Global) -> Result<String, AllocError>
        ensures { IfOk result (λ text. string_bytes text ≡ reason_text self) }
    {
        match self {
            LineReason::BadLine => format!(in alloc; "BadLine"),
            LineReason::Schema(number) => format!(in alloc; "schema {number}"),
            LineReason::Table(number) => format!(in alloc; "table {number}"),
            LineReason::Query(number) => format!(in alloc; "query {number}"),
            LineReason::NoSuchMessage => format!(in alloc; "NoSuchMessage"),
            LineReason::NoSuchNode => format!(in alloc; "NoSuchNode"),
            LineReason::NodeDown => format!(in alloc; "NodeDown"),
            LineReason::NothingToDo => format!(in alloc; "NothingToDo"),
            LineReason::Upsert(number) => format!(in alloc; "upsert {number}"),
        }
    }
}
