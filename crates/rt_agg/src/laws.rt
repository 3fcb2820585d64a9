ghost use Rattle.rt_schema.specs.Row.{IsRowOf};
ghost use Rattle.rt_model.specs.Checked.{IsQuery};
ghost use Rattle.rt_agg.specs.Grouped.{Fits};

use rt_model::Query;
use rt_schema::{Row, Schema};

/// Each row of a schema fits each query that can be read over it: a law.
pub fn rows_fit(_schema: &Schema, _query: &Query, _row: &Row)
    requires query { IsQuery _schema.now _query.now }
    requires row { IsRowOf _schema.now _row.now }
    ensures { Fits _query.now _row.now }
{}
