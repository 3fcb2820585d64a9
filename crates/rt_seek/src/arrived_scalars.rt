//! The whole numbers that arrived.
ghost use Rattle.std.specs.Prelude.{◌≡◌};
ghost use Rattle.rt_agg.specs.declared.scalar.Scalar.TheVariants.{Int as Number, Long as Wide};

use crate::held_scalars::time_scalar;
use crate::scalars_by_id::ScalarsById;
use rt_agg::Scalar;

/// The distinct numbers of a column of INT.
#[derive(Clone, Copy)]
pub(crate) struct ArrivedInts<'a> {
    pub(crate) keys: &'a [i32],
}

impl<'a> ScalarsById for ArrivedInts<'a> {
    ghost use Rattle.std.specs.Prelude.{length, map};
    ghost use Rattle.rt_schema.specs.declared.value.Value.TheVariants.{Int};

    ghost values = { λ a. map Int a.keys.now };

    ghost count = { λ a. length a.keys.now };

    fn scalar(&self, id: u32) -> Option<Scalar> {
        Some(int_scalar(&self.keys[id as usize]))
    }
}

/// The distinct numbers of a column of LONG.
#[derive(Clone, Copy)]
pub(crate) struct ArrivedLongs<'a> {
    pub(crate) keys: &'a [i64],
}

impl<'a> ScalarsById for ArrivedLongs<'a> {
    ghost use Rattle.std.specs.Prelude.{length, map};
    ghost use Rattle.rt_schema.specs.declared.value.Value.TheVariants.{Long};

    ghost values = { λ a. map Long a.keys.now };

    ghost count = { λ a. length a.keys.now };

    fn scalar(&self, id: u32) -> Option<Scalar> {
        Some(long_scalar(&self.keys[id as usize]))
    }
}

/// The distinct moments of a column.
#[derive(Clone, Copy)]
pub(crate) struct ArrivedTimes<'a> {
    pub(crate) keys: &'a [i64],
}

impl<'a> ScalarsById for ArrivedTimes<'a> {
    ghost use Rattle.std.specs.Prelude.{length, map};
    ghost use Rattle.rt_schema.specs.declared.value.Value.TheVariants.{Time};

    ghost values = { λ a. map Time a.keys.now };

    ghost count = { λ a. length a.keys.now };

    fn scalar(&self, id: u32) -> Option<Scalar> {
        Some(time_scalar(&self.keys[id as usize]))
    }
}

/// The scalar of an INT.
pub(crate) fn int_scalar(number: &i32) -> Scalar
    ensures { result ≡ Number number.now }
{
    Scalar::Int(*number)
}

/// The scalar of a LONG.
pub(crate) fn long_scalar(number: &i64) -> Scalar
    ensures { result ≡ Wide number.now }
{
    Scalar::Long(*number)
}
