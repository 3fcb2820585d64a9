ghost use Rattle.std.specs.Prelude.{◌≡◌, ◌++◌, ◌∷◌, [], None, OnOk, OnErr, option_copied, string_bytes};
ghost use Rattle.rt_deep.specs.Files.{file_of, AreOnce};
ghost use Rattle.rt_deep.specs.Answers.{compared, compared_in};
ghost use Rattle.rt_base.specs.Faults.{fault_of, met_fault, answer_under};
ghost use Rattle.rt_deep.specs.declared.refused.DeepRefused.TheVariants.{Failed};
ghost use Rattle.rt_deep.specs.Calls.{Puts, Gets};
ghost use Rattle.rt_deep.specs.Index.{IsPlaceIn};
ghost use Rattle.rt_deep.specs.Memory.{means, with_file, PutsNew};

use crate::{DeepPut, DeepRefused, DeepStore};
use rt_base::{Fault, PlannedFaults};
use rt_lists::{Bytes, Text};
use sha2::{Digest, Sha256};
use std::alloc::{AllocError, Global};
use std::collections::BTreeMap;
use std::marker::Model;

/// A deep store in memory, whose faults are planned.
#[derive(Drop)]
pub struct MemoryDeep {
    files: Vec<DeepPut>,
    /// The place of each path's file in the list of all files.
    places: BTreeMap<String, usize>,
    faults: PlannedFaults,
}

impl Model for MemoryDeep {
    ghost use Rattle.rt_deep.specs.Meaning.{Told};

    ghost Value = { Told };

    ghost use Rattle.rt_deep.specs.Files.{AreOnce};
    ghost use Rattle.rt_deep.specs.Index.{IsIndex};

    ghost view = { λ a. record { files = a.files.items; faults = a.faults } };

    ghost invariant = { λ a. IsIndex a.files.items a.places × AreOnce a.files.items };
}

impl MemoryDeep {
    /// A deep store without any file. It takes no memory yet.
    #[tactic(auto, using(crate::proofs::Index::index_empty))]
    pub fn make(alloc: Global) -> MemoryDeep
        ensures { result ≡ record { files = []; faults = record { plan = []; met = 0 } } }
    {
        MemoryDeep {
            files: Vec::new(alloc),
            places: BTreeMap::new(alloc),
            faults: PlannedFaults::make(alloc),
        }
    }

    /// All files, in the order in which they were put.
    pub fn files(&self) -> &[DeepPut]
        ensures files { result.now ≡ self.now.files }
        ensures once { AreOnce self.now.files }
    {
        self.files.as_slice()
    }

    /// Plans a fault for the first call that has none planned before it. A kept one carries a put that is not
    /// refused out first, a lost one doesn't.
    pub fn plan_fault(&mut self, kept: bool) -> Result<(), AllocError>
        ensures ok { OnOk result (self.new ≡ record self.old { faults = record self.old.faults { plan = self.old.faults.plan ++ kept ∷ [] } }) }
        ensures err { OnErr result (self.new ≡ self.old) }
    {
        self.faults.plan(kept)
    }

    /// The place of the file at a path in the list of all files.
    fn place(&self, path: &str) -> Option<usize>
        ensures { IsPlaceIn self.now.files path.now result }
    {
        self.places.get(path).copied()
    }

    /// The file at a path, where one stands there.
    #[tactic(auto, using(crate::proofs::Index::place_none, crate::proofs::Index::place_some))]
    fn file(&self, path: &str) -> Option<&DeepPut>
        ensures file { option_copied result ≡ file_of self.now.files path.now }
        ensures once { AreOnce self.now.files }
    {
        match self.place(path) {
            Some(place) => self.files.get(place),
            None => None,
        }
    }

    /// What a put of these bytes answers, where a file stands at its path.
    fn compare(&self, path: &str, bytes: &[u8]) -> Option<Result<(), DeepRefused>>
        ensures answer { result ≡ compared_in (file_of self.now.files path.now) bytes.now }
        ensures once { AreOnce self.now.files }
    {
        match self.file(path) {
            Some(file) => Some(compared(file.bytes.as_slice(), bytes)),
            None => None,
        }
    }

    /// Does a call that puts nothing, under the fault that it meets.
    fn settle(&mut self, answer: Result<(), DeepRefused>) -> Result<(), DeepRefused>
        ensures answered { result ≡ answer_under Failed (fault_of self.old.faults.plan) answer }
        ensures told { self.new ≡ record self.old { faults = met_fault self.old.faults } }
    {
        match self.faults.meet() {
            Fault::Nothing => answer,
            Fault::Lost | Fault::Kept => Err(DeepRefused::Failed),
        }
    }

    /// Adds a file that is to be copied.
    fn carry_out(&mut self, alloc: Global, path: &str, bytes: &[u8]) -> Result<(), AllocError>
        requires { file_of self.old.files path.now ≡ None }
        ensures ok { OnOk result (self.new ≡ with_file self.old (record { path = path.now; bytes = bytes.now })) }
        ensures err { OnErr result (self.new ≡ self.old) }
    {
        let put = DeepPut {
            path: Text::copied_from(alloc, path)?,
            bytes: Bytes::copied_from(alloc, bytes)?,
        };
        let key = Text::copied_from(alloc, path)?.into_string();
        self.append(key, put)
    }

    /// Adds a file under its path.
    fn append(&mut self, key: String, put: DeepPut) -> Result<(), AllocError>
        requires key { string_bytes key ≡ put.path }
        requires free { file_of self.old.files put.path ≡ None }
        ensures ok { OnOk result (self.new ≡ with_file self.old put) }
        ensures err { OnErr result (self.new ≡ self.old) }
    {
        let place = self.files.len();
        self.files.reserve(1)?;
        match self.places.insert(key, place) {
            Ok(_) => {
                self.files.push_reserved(put);
                Ok(())
            }
            Err(_) => Err(AllocError),
        }
    }

    /// Does a put at a path where nothing stands, under the fault that it meets.
    fn write(&mut self, alloc: Global, path: &str, bytes: &[u8]) -> Result<(), DeepRefused>
        requires { file_of self.old.files path.now ≡ None }
        ensures { PutsNew self.old self.new (record { path = path.now; bytes = bytes.now }) result }
    {
        if self.faults.next() != Fault::Lost {
            self.carry_out(alloc, path, bytes)?;
        }
        self.settle(Ok(()))
    }
}

impl DeepStore for MemoryDeep {
    ghost use Rattle.rt_deep.specs.Memory.{means};

    ghost meaning = { means };

    fn put(&mut self, alloc: Global, path: &str, bytes: &[u8]) -> Result<(), DeepRefused>
        ensures { Puts (means self.old) (means self.new) path.now bytes.now result }
    {
        match self.compare(path, bytes) {
            Some(answer) => self.settle(answer),
            None => self.write(alloc, path, bytes),
        }
    }

    fn get(&mut self, alloc: Global, path: &str) -> Result<Bytes, DeepRefused>
        ensures { Gets (means self.old) (means self.new) path.now result }
    {
        match self.faults.meet() {
            Fault::Nothing => {}
            Fault::Lost | Fault::Kept => return Err(DeepRefused::Failed),
        }
        match self.file(path) {
            Some(file) => Ok(file.bytes.copy(alloc)?),
            None => Err(DeepRefused::Absent),
        }
    }
}

/// What a put of bytes answers where others, or the same, are kept.
fn compared(kept: &[u8], offered: &[u8]) -> Result<(), DeepRefused>
    ensures { result ≡ compared kept.now offered.now }
{
    if kept == offered {
        return Ok(());
    }
    Err(DeepRefused::OtherBytes {
        kept: Sha256::digest(kept),
        offered: Sha256::digest(offered),
    })
}
