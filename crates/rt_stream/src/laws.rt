ghost use Rattle.std.specs.Prelude.{ℕ, ◌<◌, List, length};
ghost use Rattle.rt_base.specs.declared.numbers.Partition.{Partition};
ghost use Rattle.rt_stream.specs.Log.{Log, with_message};
ghost use Rattle.rt_stream.specs.Feed.{Grows};

/// A message more in one of its partitions is growth of a log, and so is any number of them: growth of what has
/// grown is growth.
pub fn a_log_only_grows()
    ensures message { (log : Log) (partition : Partition) (message : List ℕ)
        → partition.0 < length log → Grows log (with_message log partition message) }
    ensures same { (log : Log) → Grows log log }
    ensures again { (old mid new : Log) → Grows old mid → Grows mid new → Grows old new }
{}
