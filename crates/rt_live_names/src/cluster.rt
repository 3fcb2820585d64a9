use std::marker::Brand;

/// What all nodes of one running cluster have in common, so that contracts can tell that they are of the same cluster.
/// Contracts alone use it.
pub trait Cluster {
    ghost use Rattle.rt_live_names.specs.Names.{Names};

    ghost names: { Names };
}

impl Cluster for Brand {
    ghost use Rattle.rt_live_names.specs.Names.{no_names};

    ghost names = { no_names };
}
