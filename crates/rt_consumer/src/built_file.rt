ghost use Rattle.std.specs.Prelude.{◌≡◌, length, IfOk};
ghost use Rattle.rt_segment.specs.Spelling.{file_of};

use rt_lists::Bytes;
use rt_scan::SummarizedSegment;
use rt_segment::{Sealed, encode};
use std::alloc::{AllocError, Global};
use std::marker::Model;

/// A sealed segment with the bytes of its file.
#[derive(Drop)]
pub struct BuiltFile {
    file: SummarizedSegment,
    bytes: Bytes,
}

impl Model for BuiltFile {
    ghost use Rattle.std.specs.Prelude.{◌≡◌};
    ghost use Rattle.rt_segment.specs.Segment.{SealedSegment};
    ghost use Rattle.rt_segment.specs.Spelling.{file_of};

    ghost Value = { SealedSegment };

    ghost view = { λ a. a.file };

    ghost invariant = { λ a. a.bytes ≡ file_of a.file };
}

impl BuiltFile {
    /// Writes the file of a sealed segment. Fails only where memory is refused.
    pub fn make(alloc: Global, file: SummarizedSegment) -> Result<BuiltFile, AllocError>
        ensures { IfOk result (λ built. built ≡ file) }
    {
        let bytes = Bytes::of(encode(alloc, file.file())?);
        Ok(BuiltFile { file, bytes })
    }

    /// The number of bytes of the file.
    pub fn size(&self) -> u64
        ensures { result ≡ length (file_of self.now) }
    {
        self.bytes.len() as u64
    }

    /// The file's bytes. Fails only where memory is refused.
    pub fn bytes(&self, alloc: Global) -> Result<Bytes, AllocError>
        ensures { IfOk result (λ bytes. bytes ≡ file_of self.now) }
    {
        self.bytes.copy(alloc)
    }

    /// The sealed segment.
    pub fn file(&self) -> &Sealed
        ensures { result.now ≡ self.now }
    {
        self.file.file()
    }

    /// The sealed segment, given back.
    pub fn into_file(self) -> SummarizedSegment
        ensures { result ≡ self }
    {
        self.file
    }
}
