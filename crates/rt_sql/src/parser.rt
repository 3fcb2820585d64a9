ghost use Rattle.std.specs.Prelude.{◌≡◌, IfOk};
ghost use Rattle.rt_schema.specs.Schema.{IsSchema};
ghost use Rattle.rt_model.specs.Checked.{IsQuery};
ghost use Rattle.rt_tokens.specs.Tokens.{tokens_of};
ghost use Rattle.rt_grammar.specs.Run.{Answers};
ghost use Rattle.rt_grammar.specs.Faults.{NestsDeeper};
ghost use Rattle.rt_sql.specs.Parsing.{is_table, query_of};
ghost use Rattle.rt_sql.specs.Queries.{IsTextOf, IsReadAs, IfMisspelt, IsLimited, IfLimited};

use crate::before::{are_known, are_within};
use crate::kinds::is_typed_query;
use crate::rules::breach;
use rt_base::limits::LONGEST_QUERY;
use rt_grammar::{SqlRefused, read};
use rt_model::Query;
use rt_schema::Schema;
use rt_tokens::tokens_of;
use std::alloc::{AllocError, Global};

/// The query that a text is, of a table with a schema: what the grammar of queries derives from the
/// text's tokens, where the further rules of syntax hold, the name behind FROM is the table's, each
/// other name is a column's, and kinds and numbers fit. A text of more than 65,536 bytes, or one that
/// nests deeper than 64 before its first fault, is refused as `Limit`; else of the refusals the first
/// that applies is answered, by their order.
#[tactic(auto, using(crate::proofs::Texts::answered_text, crate::proofs::Texts::text_answered, crate::proofs::Texts::answered_syntax, crate::proofs::Texts::answered_deep, crate::proofs::Texts::answered_limit, crate::proofs::Fitting::answered_fits))]
pub fn parse(alloc: Global, text: &str, schema: &Schema, table: &str) -> Result<Query, SqlRefused>
    requires { IsSchema schema.now }
    // Which refusal it is, and which query.
    ensures exact { Answers (query_of schema.now table.now text.now) result }
    // What is answered is derived by the grammar.
    ensures derived { IfOk result (IsTextOf schema.now table.now text.now) }
    // What is answered is a query over the schema.
    ensures fits { IfOk result (IsQuery schema.now) }
    // What the grammar derives is answered.
    ensures only { (query : Query) → IsTextOf schema.now table.now text.now query → IsReadAs query result }
    // A refusal by syntax is at the first token that no query, however deep it nests, has in its place,
    // or at a breach of a rule.
    ensures misspelt { IfMisspelt schema.now text.now result }
    // A text that nests too deep before its first fault passes a limit.
    ensures too_deep { NestsDeeper schema.now (tokens_of text.now) → IsLimited result }
    // A text passes a limit only by its length, its depth or a number.
    ensures limited { IfLimited schema.now text.now result }
{
    read_text(alloc, text, schema, table)
}

fn read_text(alloc: Global, text: &str, schema: &Schema, table: &str) -> Result<Query, SqlRefused>
    requires { IsSchema schema.now }
    ensures { Answers (query_of schema.now table.now text.now) result }
{
    if text.len() > LONGEST_QUERY {
        return Err(SqlRefused::Limit);
    }
    let tokens = tokens_of(alloc, text)?;
    let parts = read(alloc, schema, tokens.as_slice(), text.len() as u64)?;
    if let Some(byte) = breach(alloc, &parts)? {
        return Err(SqlRefused::Syntax { byte });
    }
    if !is_table(alloc, parts.table.as_str(), table)? {
        return Err(SqlRefused::NoTable);
    }
    if !are_known(schema, tokens.as_slice()) {
        return Err(SqlRefused::NoColumn);
    }
    if !is_typed_query(schema, &parts) {
        return Err(SqlRefused::WrongType);
    }
    if !are_within(tokens.as_slice()) {
        return Err(SqlRefused::Limit);
    }
    Ok(parts.into_query(alloc)?)
}

// Whether a name is a table's, or that with `_REALTIME` behind it.
fn is_table(alloc: Global, name: &str, table: &str) -> Result<bool, AllocError>
    ensures { IfOk result (λ answer. answer ≡ is_table name.now table.now) }
{
    if name == table {
        return Ok(true);
    }
    let realtime = format!(in alloc; "{table}_REALTIME")?;
    Ok(name == realtime.as_str())
}
