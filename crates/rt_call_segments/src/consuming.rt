ghost use Rattle.std.specs.Prelude.{◌≡◌, map};
ghost use Rattle.rt_schema.specs.Schema.{IsSchema};

use rt_mutable::MutableSegment;
use rt_schema::Schema;

/// A consuming segment over a schema.
#[derive(Drop)]
pub struct Consuming {
    pub schema: Schema,
    pub segment: MutableSegment,
    ghost read: { IsSchema schema },
    ghost names: { map (λ shape. shape.name) segment.columns ≡ map (λ column. column.name) schema.columns },
    ghost kinds: { map (λ shape. shape.kind) segment.columns ≡ map (λ column. column.kind) schema.columns },
}
