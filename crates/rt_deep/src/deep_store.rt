ghost use Rattle.rt_deep.specs.Meaning.{Meaning};
ghost use Rattle.rt_deep.specs.Calls.{Puts, Gets};

use crate::DeepRefused;
use rt_lists::Bytes;
use std::alloc::Global;

/// Whole files by path, each written once.
///
/// A deep store means the list of all its files with the faults to come, where these are told; the files that its
/// caller has seen, in the order in which they were put; and a count of faults. No path has two files. Each call's
/// answer is by the files as they stand after it, its own put left out, and these begin with what its caller had
/// seen. `Failed` comes only where the count rose; the put was then carried out wholly or not at all. A call that is
/// refused in another way puts nothing, and after `Memory` all is as before.
pub trait DeepStore {
    /// What the deep store means.
    ghost meaning: { Self → Meaning };

    /// Puts a file. Where the same bytes stand at the path it puts nothing, and that is no refusal; where others
    /// do, it is refused by `OtherBytes`.
    fn put(&mut self, alloc: Global, path: &str, bytes: &[u8]) -> Result<(), DeepRefused>
        ensures { Puts (meaning self.old) (meaning self.new) path.now bytes.now result };

    /// The bytes of the file at a path. `Absent` where nothing stands there.
    fn get(&mut self, alloc: Global, path: &str) -> Result<Bytes, DeepRefused>
        ensures { Gets (meaning self.old) (meaning self.new) path.now result };
}
