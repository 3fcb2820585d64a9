ghost use Rattle.std.specs.Prelude.{◌≡◌, IfOk};
ghost use Rattle.serde_json.specs.View.{view};
ghost use Rattle.rt_meta.specs.Text.{meta_text, meta_data, open_data, done_data};

use rt_lists::Text;
use rt_model::{Commit, SegMeta, Status};
use serde_json::{Value, json};
use std::alloc::{AllocError, Global};

/// The metadata as compact JSON: an object with the name, the start, the status and the moment of writing, and of a
/// committed segment also with what its commit says. Keys ascend. Fails only where memory is refused.
pub fn text(alloc: Global, meta: &SegMeta) -> Result<Text, AllocError>
    ensures { IfOk result (λ text. text ≡ meta_text meta.now) }
{
    let value = value_of(alloc, meta)?;
    Ok(Text::of(value.to_string(alloc)?))
}

/// The metadata as a JSON value.
fn value_of(alloc: Global, meta: &SegMeta) -> Result<Value, AllocError>
    ensures { IfOk result (λ value. view value ≡ meta_data meta.now) }
{
    match &meta.status {
        Status::InProgress => open_value(alloc, meta, "IN_PROGRESS"),
        Status::Done(commit) => done_value(alloc, meta, commit),
        Status::Abandoned => open_value(alloc, meta, "ABANDONED"),
    }
}

/// The metadata of a segment with no commit, under the name of its status.
fn open_value(alloc: Global, meta: &SegMeta, status: &str) -> Result<Value, AllocError>
    ensures { IfOk result (λ value. view value ≡ open_data meta.now status.now) }
{
    json!(in alloc; {
        "name": meta.name.as_str(),
        "start": meta.start.0,
        "status": status,
        "written": meta.written.0
    })
}

/// The metadata of a segment with its commit.
fn done_value(alloc: Global, meta: &SegMeta, commit: &Commit) -> Result<Value, AllocError>
    ensures { IfOk result (λ value. view value ≡ done_data meta.now commit.now) }
{
    let digest = hex::encode(alloc, commit.digest.as_slice())?;
    json!(in alloc; {
        "digest": digest,
        "end": commit.end.0,
        "name": meta.name.as_str(),
        "path": commit.path.as_str(),
        "rows": commit.rows,
        "start": meta.start.0,
        "status": "DONE",
        "written": meta.written.0
    })
}
