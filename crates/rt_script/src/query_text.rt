ghost use Rattle.std.specs.Prelude.{◌≡◌, true, false, IfOk, IfSome, IfNone};
ghost use Rattle.std.specs.Str.{is_utf8};
ghost use Rattle.rt_schema.specs.Schema.{IsSchema};
ghost use Rattle.rt_sql.specs.Parsing.{query_of as query_in};
ghost use Rattle.rt_script.specs.QueryTexts.{FitsText, text_of, text_read};

use rt_lists::Text;
use rt_model::Query;
use rt_schema::Schema;
use rt_sql::{SqlRefused, parse};
use std::alloc::{AllocError, Global};

/// What a text in UTF-8 is among the queries of a table.
#[derive(Drop)]
pub enum QueryText {
    Query(Query),
    /// It is none, which is refused by this number.
    Refused(u32),
}

/// What a text is among the queries of a table, or none where it isn't UTF-8.
#[tactic(auto, using(crate::proofs::Queries::text_asked, crate::proofs::Queries::bytes_refused))]
pub fn read_query(
    alloc: Global,
    schema: &Schema,
    table: &Text,
    text: &[u8],
) -> Result<Option<QueryText>, AllocError>
    requires { IsSchema schema.now }
    ensures text { IfOk result (λ found. found ≡ text_of schema.now table.now text.now) }
    ensures fits { IfOk result (λ found. IfSome found (FitsText schema.now)) }
{
    match utf8(text) {
        Some(text) => Ok(Some(read(alloc, schema, table, text)?)),
        None => Ok(None),
    }
}

/// A text in UTF-8, or none.
#[tactic(auto, using(crate::proofs::Queries::is_text, crate::proofs::Queries::is_no_text))]
pub(crate) fn utf8(text: &[u8]) -> Option<&str>
    ensures some { IfSome result (λ found. (found.now ≡ text.now) × (is_utf8 text.now ≡ true)) }
    ensures none { IfNone result (is_utf8 text.now ≡ false) }
{
    match str::from_utf8(text) {
        Ok(text) => Some(text),
        Err(_) => None,
    }
}

#[tactic(auto, using(crate::proofs::Queries::read_as))]
fn read(alloc: Global, schema: &Schema, table: &Text, text: &str) -> Result<QueryText, AllocError>
    requires { IsSchema schema.now }
    ensures text { IfOk result (λ found. found ≡ text_read (query_in schema.now table.now text.now)) }
    ensures fits { IfOk result (FitsText schema.now) }
{
    match parse(alloc, text, schema, table.as_str()) {
        Ok(query) => Ok(QueryText::Query(query)),
        Err(SqlRefused::Syntax { byte: _ }) => Ok(QueryText::Refused(1)),
        Err(SqlRefused::NoTable) => Ok(QueryText::Refused(2)),
        Err(SqlRefused::NoColumn) => Ok(QueryText::Refused(3)),
        Err(SqlRefused::WrongType) => Ok(QueryText::Refused(4)),
        Err(SqlRefused::Limit) => Ok(QueryText::Refused(5)),
        Err(SqlRefused::Memory) => Err(AllocError),
    }
}
