use std::marker::Brand;

/// What the locked values and the callers of one ground have in common, so that contracts can tell that they are of the
/// same ground: the names of its three histories, what it started with, and how many callers it was founded with.
/// Contracts alone use it.
pub trait Naming {
    ghost use Rattle.std.specs.Prelude.{ℕ};
    ghost use Rattle.rt_model.specs.Starting.{Starting};
    ghost use Rattle.rt_ground.specs.declared.blanks.Blanks.{Blanks};

    ghost names: { Blanks };

    ghost starting: { Starting };

    ghost callers: { ℕ };
}

impl Naming for Brand {
    ghost use Rattle.rt_ground.specs.Names.{no_names, no_starting};

    ghost names = { no_names };

    ghost starting = { no_starting };

    ghost callers = { 0 };
}
