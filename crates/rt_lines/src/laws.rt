ghost use Rattle.std.specs.Prelude.{◌≡◌, ◌↔◌, ℕ, List, Some};
ghost use Rattle.rt_lines.specs.declared.cluster.Cluster.{Cluster};
ghost use Rattle.rt_lines.specs.Cluster.{cluster_of};
ghost use Rattle.rt_lines.specs.ClusterLine.{IsClusterLine};

/// The cluster of a header is read from exactly the lines that spell a cluster, and as what they spell.
pub fn cluster_lines_are_what_they_spell()
    ensures { (line : List ℕ) (cluster : Cluster) → (cluster_of line ≡ Some cluster) ↔ IsClusterLine line cluster }
{}
