//! The whole numbers of dictionaries.
ghost use Rattle.std.specs.Prelude.{◌≡◌};
ghost use Rattle.rt_agg.specs.declared.scalar.Scalar.TheVariants.{Time as Millis};

use crate::scalars_by_id::ScalarsById;
use rt_agg::Scalar;
use rt_dict::Dict;

/// The numbers of a dictionary of INT.
#[derive(Clone, Copy)]
pub(crate) struct HeldInts<'a> {
    pub(crate) dict: &'a Dict<i32>,
}

impl<'a> ScalarsById for HeldInts<'a> {
    ghost use Rattle.std.specs.Prelude.{length, map};
    ghost use Rattle.rt_schema.specs.declared.value.Value.TheVariants.{Int};

    ghost values = { λ a. map Int a.dict.now };

    ghost count = { λ a. length a.dict.now };

    fn scalar(&self, id: u32) -> Option<Scalar> {
        Some(Scalar::Int(*self.dict.value(id)))
    }
}

/// The numbers of a dictionary of LONG.
#[derive(Clone, Copy)]
pub(crate) struct HeldLongs<'a> {
    pub(crate) dict: &'a Dict<i64>,
}

impl<'a> ScalarsById for HeldLongs<'a> {
    ghost use Rattle.std.specs.Prelude.{length, map};
    ghost use Rattle.rt_schema.specs.declared.value.Value.TheVariants.{Long};

    ghost values = { λ a. map Long a.dict.now };

    ghost count = { λ a. length a.dict.now };

    fn scalar(&self, id: u32) -> Option<Scalar> {
        Some(Scalar::Long(*self.dict.value(id)))
    }
}

/// The moments of a dictionary.
#[derive(Clone, Copy)]
pub(crate) struct HeldTimes<'a> {
    pub(crate) dict: &'a Dict<i64>,
}

impl<'a> ScalarsById for HeldTimes<'a> {
    ghost use Rattle.std.specs.Prelude.{length, map};
    ghost use Rattle.rt_schema.specs.declared.value.Value.TheVariants.{Time};

    ghost values = { λ a. map Time a.dict.now };

    ghost count = { λ a. length a.dict.now };

    fn scalar(&self, id: u32) -> Option<Scalar> {
        Some(time_scalar(self.dict.value(id)))
    }
}

/// The scalar of a moment.
pub(crate) fn time_scalar(millis: &i64) -> Scalar
    ensures { result ≡ Millis millis.now }
{
    Scalar::Time(*millis)
}
