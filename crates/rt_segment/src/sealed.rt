ghost use Rattle.std.specs.Prelude.{◌≡◌, ◌<◌, IfOk, Some, length, slice_get};
ghost use Rattle.sha2.specs.Sha256.{sha256};
ghost use Rattle.rt_segment.specs.Segment.{SealedSegment, IsSealable, IsSealed, rows_of, are_columns};
ghost use Rattle.rt_segment.specs.Spelling.{body_of, file_of, header_of};

use crate::body_writer::write_body;
use crate::segment_column::SegmentColumn;
use crate::table::{are_columns, are_whole, copies_of, row_in};
use rt_base::{Header, Partition, Range, Sequence};
use rt_lists::Items;
use rt_schema::{Row, Schema};
use sha2::{Digest, Sha256};
use std::alloc::{AllocError, Global};
use std::marker::Model;

// The bytes of a digest.
const DIGEST_SIZE: u64 = 32;

/// A sealed segment: a format, a header and a table of columns.
#[derive(Drop)]
pub struct Sealed {
    format: u8,
    partition: Partition,
    sequence: Sequence,
    range: Range,
    rows: u32,
    columns: Items<SegmentColumn>,
    // The digest of the file, where it was read with it.
    digest: Option<[u8; 32]>,
}

impl Model for Sealed {
    ghost use Rattle.std.specs.Prelude.{◌≡◌, IfSome};
    ghost use Rattle.sha2.specs.Sha256.{sha256};
    ghost use Rattle.rt_segment.specs.Segment.{SealedSegment, IsSealed};
    ghost use Rattle.rt_segment.specs.Spelling.{body_of};

    ghost Value = { SealedSegment };

    ghost view = { λ a. record { format = a.format; partition = a.partition; sequence = a.sequence; range = a.range; rows = a.rows; columns = a.columns } };

    ghost invariant = { λ a. IsSealed (record { format = a.format; partition = a.partition; sequence = a.sequence; range = a.range; rows = a.rows; columns = a.columns })
        × IfSome a.digest (λ digest. digest ≡ sha256 (body_of (record { format = a.format; partition = a.partition; sequence = a.sequence; range = a.range; rows = a.rows; columns = a.columns }))) };
}

impl Sealed {
    /// The segment of a format, 1 or 2, a header and its columns.
    pub fn make(
        format: u8,
        partition: Partition,
        sequence: Sequence,
        range: Range,
        rows: u32,
        columns: Items<SegmentColumn>,
    ) -> Self
        requires { IsSealable (record { format = format; partition = partition; sequence = sequence; range = range; rows = rows; columns = columns }) }
        ensures { result ≡ record { format = format; partition = partition; sequence = sequence; range = range; rows = rows; columns = columns } }
    {
        are_whole(columns.as_slice());
        Sealed {
            format,
            partition,
            sequence,
            range,
            rows,
            columns,
            digest: None,
        }
    }

    /// The segment of parts that were read, with the digest of its file.
    pub(crate) fn of(format: u8, header: Header, columns: Items<SegmentColumn>) -> Self
        requires is { IsSealed (record { format = format; partition = header.partition; sequence = header.sequence; range = header.range; rows = header.rows; columns = columns }) }
        requires digest { header.digest ≡ sha256 (body_of (record { format = format; partition = header.partition; sequence = header.sequence; range = header.range; rows = header.rows; columns = columns })) }
        ensures { result ≡ record { format = format; partition = header.partition; sequence = header.sequence; range = header.range; rows = header.rows; columns = columns } }
    {
        Sealed {
            format,
            partition: header.partition,
            sequence: header.sequence,
            range: header.range,
            rows: header.rows,
            columns,
            digest: Some(header.digest),
        }
    }

    /// The format of the segment's file, 1 or 2.
    pub fn format(&self) -> u8
        ensures { result ≡ self.now.format }
    {
        self.format
    }

    /// What the segment's file says of itself, and the file's digest. Fails only where memory is refused.
    pub fn header(&self, alloc: Global) -> Result<Header, AllocError>
        ensures header { IfOk result (λ header. header ≡ header_of self.now) }
        ensures right { IsSealed self.now }
    {
        Ok(Header {
            partition: self.partition,
            sequence: self.sequence,
            range: self.range,
            rows: self.rows,
            digest: self.digest(alloc)?,
        })
    }

    // The digest of the file; where it isn't known, what stands before it is written for it.
    fn digest(&self, alloc: Global) -> Result<[u8; 32], AllocError>
        ensures { IfOk result (λ digest. digest ≡ sha256 (body_of self.now)) }
    {
        match &self.digest {
            Some(digest) => Ok(*digest),
            None => Ok(Sha256::digest(self.body(alloc)?.as_slice())),
        }
    }

    /// The digest of the file whose bytes before it are these.
    pub(crate) fn digest_behind(&self, body: &[u8]) -> [u8; 32]
        requires { body.now ≡ body_of self.now }
        ensures { result ≡ sha256 (body_of self.now) }
    {
        match &self.digest {
            Some(digest) => *digest,
            None => Sha256::digest(body),
        }
    }

    /// The offsets that the segment covers.
    pub fn range(&self) -> Range
        ensures range { result ≡ self.now.range }
        ensures right { IsSealed self.now }
    {
        self.range
    }

    /// The number of rows.
    pub fn rows(&self) -> u32
        ensures rows { result ≡ self.now.rows }
        ensures right { IsSealed self.now }
    {
        self.rows
    }

    /// The columns, in the order of the file.
    pub fn columns(&self) -> &[SegmentColumn]
        ensures { result.now ≡ self.now.columns }
    {
        self.columns.as_slice()
    }

    /// The number of bytes of the segment's file. Fails only where memory is refused.
    #[tactic(auto, using(crate::proofs::Sizes::with_digest))]
    pub fn size(&self, alloc: Global) -> Result<u64, AllocError>
        ensures { IfOk result (λ size. size ≡ length (file_of self.now)) }
    {
        let body = self.body(alloc)?;
        Ok(body.len() as u64 + DIGEST_SIZE)
    }

    /// The bytes before the digest of the segment's file. Fails only where memory is refused.
    pub(crate) fn body(&self, alloc: Global) -> Result<Vec<u8>, AllocError>
        ensures { IfOk result (λ bytes. bytes.items ≡ body_of self.now) }
    {
        write_body(
            alloc,
            self.format,
            self.partition,
            self.sequence,
            self.range,
            self.rows,
            self.columns.as_slice(),
        )
    }

    /// The row of a number, counted from 0. Fails only where memory is refused.
    pub fn row(&self, alloc: Global, number: u32) -> Result<Row, AllocError>
        requires { number < self.now.rows }
        ensures { IfOk result (λ row. slice_get (rows_of self.now) number ≡ Some row) }
    {
        row_in(alloc, self.columns.as_slice(), number)
    }

    /// Whether the columns are the schema's by name and kind, in order.
    pub fn fits(&self, schema: &Schema) -> bool
        ensures { result ≡ are_columns self.now.columns schema.now.columns }
    {
        are_columns(self.columns.as_slice(), schema.columns.as_slice())
    }

    /// The same partition, sequence, range and table in format 2. Fails only where memory is refused.
    pub fn upgrade(&self, alloc: Global) -> Result<Sealed, AllocError>
        ensures { IfOk result (λ upgraded. upgraded ≡ record self.now { format = 2 }) }
    {
        let columns = copies_of(alloc, self.columns.as_slice())?;
        let format = 2;
        Ok(Sealed::make(
            format,
            self.partition,
            self.sequence,
            self.range,
            self.rows,
            columns,
        ))
    }
}
