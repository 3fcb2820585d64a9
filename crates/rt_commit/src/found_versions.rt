ghost use Rattle.std.specs.Prelude.{◌≡◌, []};
ghost use Rattle.rt_commit.specs.Found.{Adds};

use std::marker::Model;

/// How often a job tries to set the ideal state.
const TRIES: usize = 10;

/// The versions of the ideal state that a job found in place of the one that it had read, fewer than ten. Takes no
/// memory of its own.
#[derive(Drop)]
pub struct FoundVersions {
    count: usize,
    versions: [u64; 10],
}

impl Model for FoundVersions {
    ghost use Rattle.std.specs.Prelude.{◌≡◌, ◌<◌, ℕ, List, take, length};

    ghost Value = { List ℕ };

    ghost view = { λ a. take a.count a.versions };

    ghost invariant = { λ a. (a.count < 10) × (length a.versions ≡ 10) };
}

impl FoundVersions {
    /// No version.
    pub fn new() -> Self
        ensures { result ≡ [] }
    {
        FoundVersions {
            count: 0,
            versions: [0; 10],
        }
    }

    /// One version more; or all ten of them, where it is the tenth.
    #[tactic(auto, using(crate::proofs::Found::found_more, crate::proofs::Found::found_few, crate::proofs::Found::found_all, crate::proofs::Found::found_ten))]
    pub fn with(self, version: u64) -> Result<FoundVersions, [u64; 10]>
        ensures { Adds self version result }
    {
        let FoundVersions { count, versions } = self;
        let mut versions = versions;
        versions[count] = version;
        if count + 1 == TRIES {
            return Err(versions);
        }
        Ok(FoundVersions {
            count: count + 1,
            versions,
        })
    }
}
