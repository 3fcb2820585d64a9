ghost use Rattle.std.specs.Prelude.{◌≡◌, IfOk, option_map};
ghost use Rattle.serde_json.specs.View.{view};
ghost use Rattle.rt_upconf.specs.Upsert.{time_column_of, time_of};

use crate::object::{inside, lent, read_object, text_of};
use rt_lists::Text;
use serde_json::Value as Json;
use std::alloc::{AllocError, Global};

/// The time column that a table names, from the text that `read_table` took: the text `timeColumnName` of
/// `segmentsConfig`. There is none where that is absent, null or no text. Fails only where memory is refused.
pub fn read_time_column(alloc: Global, table_text: &str) -> Result<Option<Text>, AllocError>
    ensures { IfOk result (λ name. name ≡ time_column_of table_text.now) }
{
    let table = read_object(alloc, table_text)?;
    match time_of(lent(&table)) {
        Some(name) => Ok(Some(Text::copied_from(alloc, name)?)),
        None => Ok(None),
    }
}

/// The time column of a table's object.
pub(crate) fn time_of(table: Option<&Json>) -> Option<&str>
    ensures { option_map (λ text. text.now) result ≡ time_of (option_map (λ json. view json.now) table.entry) }
{
    text_of(inside(inside(table, "segmentsConfig"), "timeColumnName"))
}
