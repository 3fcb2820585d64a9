//! A wanted file is loaded.
ghost use Rattle.std.specs.Prelude.{◌≡◌, Ok};
ghost use Rattle.rt_entry.specs.Download.{LoadsFile, checked, got, header_by, same_header};
ghost use Rattle.rt_entry.specs.Loading.{EntryLoads, IsGot, Loads, LoadsDone, decoded_as};

use crate::{CommittedSegment, Entry, ServerRefused};
use rt_base::{Header, Partition, Range, Sequence};
use rt_deep::{DeepRefused, DeepStore};
use rt_lists::Bytes;
use rt_model::{Commit, SeenMeta, Status};
use rt_scan::SummarizedSegment;
use rt_schema::Schema;
use rt_segment::{Sealed, SegmentRefused, decode};
use std::alloc::Global;

impl Entry {
    /// Loads the file of a committed segment, where it is wanted.
    pub fn load<D: DeepStore>(
        &mut self,
        alloc: Global,
        schema: &Schema,
        partition: Partition,
        sequence: Sequence,
        deep: &mut D,
    ) -> Result<u32, ServerRefused>
        ensures { EntryLoads (D.meaning deep.old) (D.meaning deep.new) schema.now partition sequence self.old self.new result }
    {
        match self {
            Entry::Committed(segment) => segment.load(alloc, schema, partition, sequence, deep),
            Entry::Replica(_) => Err(ServerRefused::NotDue),
        }
    }
}

impl CommittedSegment {
    /// Loads the file, where it is wanted, and answers the number of its rows.
    #[tactic(auto, using(crate::proofs::Loading::loads_ok, crate::proofs::Loading::loads_err, crate::proofs::Loading::not_due_held))]
    fn load<D: DeepStore>(
        &mut self,
        alloc: Global,
        schema: &Schema,
        partition: Partition,
        sequence: Sequence,
        deep: &mut D,
    ) -> Result<u32, ServerRefused>
        ensures { LoadsFile (D.meaning deep.old) (D.meaning deep.new) schema.now partition sequence self.old self.new result }
    {
        if self.file.is_some() {
            return Err(ServerRefused::NotDue);
        }
        let file = load_done(alloc, deep, schema, partition, sequence, &self.done)?;
        let rows = file.file().rows();
        self.file = Some(file);
        Ok(rows)
    }
}

/// The file of a commit; NotDue where metadata tells of none.
#[tactic(auto, using(crate::proofs::Loading::load_none, crate::proofs::Loading::load_some))]
fn load_done<D: DeepStore>(
    alloc: Global,
    deep: &mut D,
    schema: &Schema,
    partition: Partition,
    sequence: Sequence,
    done: &SeenMeta,
) -> Result<SummarizedSegment, ServerRefused>
    ensures { LoadsDone (D.meaning deep.old) (D.meaning deep.new) schema.now partition sequence done.now result }
{
    let Status::Done(commit) = &done.meta.status else {
        return Err(ServerRefused::NotDue);
    };
    let wanted = header_by(partition, sequence, done, commit);
    load(alloc, deep, commit.path.as_str(), schema, wanted)
}

/// The file at a path, with a header and a schema's columns.
fn load<D: DeepStore>(
    alloc: Global,
    deep: &mut D,
    path: &str,
    schema: &Schema,
    wanted: Header,
) -> Result<SummarizedSegment, ServerRefused>
    ensures { Loads (D.meaning deep.old) (D.meaning deep.new) path.now schema.now wanted result }
{
    got(alloc, schema, wanted, deep.get(alloc, path))
}

/// The file in the bytes that were got.
#[tactic(auto, using(crate::proofs::Loading::decoded_is))]
fn got(
    alloc: Global,
    schema: &Schema,
    wanted: Header,
    answer: Result<Bytes, DeepRefused>,
) -> Result<SummarizedSegment, ServerRefused>
    ensures { IsGot (got schema.now wanted answer) result }
{
    match answer {
        Ok(bytes) => decoded_as(alloc, schema, wanted, decode(alloc, bytes.as_slice())),
        Err(DeepRefused::Failed) => Err(ServerRefused::StoreFault),
        Err(DeepRefused::Memory) => Err(ServerRefused::Memory),
        Err(_) => Err(ServerRefused::BadFile {
            wanted,
            found: None,
        }),
    }
}

/// What decoded bytes are, where a file with a header and a schema's columns is wanted.
fn decoded_as(
    alloc: Global,
    schema: &Schema,
    wanted: Header,
    decoded: Result<Sealed, SegmentRefused>,
) -> Result<SummarizedSegment, ServerRefused>
    ensures { IsGot (decoded_as schema.now wanted decoded) result }
{
    match decoded {
        Ok(file) => checked(alloc, schema, wanted, file),
        Err(SegmentRefused::Memory) => Err(ServerRefused::Memory),
        Err(_) => Err(ServerRefused::BadFile {
            wanted,
            found: None,
        }),
    }
}

/// A file, where it has a header and a schema's columns, with its summaries.
fn checked(
    alloc: Global,
    schema: &Schema,
    wanted: Header,
    file: Sealed,
) -> Result<SummarizedSegment, ServerRefused>
    ensures { IsGot (checked schema.now wanted (Ok file)) result }
{
    let found = file.header(alloc)?;
    if same_header(found, wanted) && file.fits(schema) {
        let file = SummarizedSegment::make(alloc, file)?;
        Ok(file)
    } else {
        Err(ServerRefused::BadFile {
            wanted,
            found: Some(found),
        })
    }
}

fn same_header(found: Header, wanted: Header) -> bool
    ensures { result ≡ same_header found wanted }
{
    found.partition == wanted.partition
        && found.sequence == wanted.sequence
        && found.range.start == wanted.range.start
        && found.range.end == wanted.range.end
        && found.rows == wanted.rows
        && found.digest == wanted.digest
}

/// The header that the metadata of a commit names.
fn header_by(partition: Partition, sequence: Sequence, done: &SeenMeta, commit: &Commit) -> Header
    ensures { result ≡ header_by partition sequence done.now commit.now }
{
    Header {
        partition,
        sequence,
        range: Range {
            start: done.meta.start,
            end: commit.end,
        },
        rows: commit.rows,
        digest: commit.digest,
    }
}
