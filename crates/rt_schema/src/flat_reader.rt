ghost use Rattle.std.specs.Prelude.{◌≡◌, ◌<◌, ◌==◌, IfOk, IfSome, IsTrue, is_some, length, slice_index, option_map, option_and_then, true, false, Some};
ghost use Rattle.json.specs.Reads.{token_of};
ghost use Rattle.serde_json.specs.Data.{no_members};
ghost use Rattle.serde_json.specs.Read.{number_of, number_from, float_of, read};
ghost use Rattle.serde_json.specs.View.{view, number_view};
ghost use Rattle.rt_schema.specs.Schema.{names_of, are_distinct};
ghost use Rattle.rt_schema.specs.Row.{row_in};
ghost use Rattle.rt_schema.specs.Flat.{scalar_of, found_in, data_of, IsPlaceOf, Puts, IsRead, cells_from};

use crate::row_reader::cell;
use crate::spare::Spare;
use crate::{Column, Row};
use fast_float::Numeral;
use json::{Reader, Scratch, Token};
use serde_json::{Number, Value as Json};
use std::alloc::{AllocError, Global};

/// The row of a text that is a flat object: one without arrays and objects in it. None where it is none, and
/// where a column's key has a value of another kind. `found` has a place for each column, with nothing in it.
pub(crate) fn read_flat(
    alloc: Global,
    columns: &[Column],
    found: &mut [Option<Json>],
    spare: &mut Spare,
    scratch: &mut Scratch,
    text: &str,
) -> Result<Option<Row>, AllocError>
    requires names { are_distinct (names_of columns.now) ≡ true }
    requires blank { data_of found.old ≡ found_in columns.now no_members }
    ensures { IfOk result (λ row. IfSome row (λ row. option_and_then (row_in columns.now) (read text.now) ≡ Some row)) }
{
    let mut reader = Reader::new(text, scratch)?;
    let Some(Token::BeginObject) = reader.next() else {
        return Ok(None);
    };
    if !read_members(alloc, columns, found, spare, &mut reader)? {
        return Ok(None);
    }
    if reader.next().is_some() {
        return Ok(None);
    }
    row(alloc, columns, found, spare)
}

/// Reads members to the end of their object, and keeps what they have for the columns; of a key that comes twice
/// the last value. False where a value is no scalar, and where the text is no JSON.
fn read_members(
    alloc: Global,
    columns: &[Column],
    found: &mut [Option<Json>],
    spare: &mut Spare,
    reader: &mut Reader<'_>,
) -> Result<bool, AllocError>
    requires names { are_distinct (names_of columns.now) ≡ true }
    requires blank { data_of found.old ≡ found_in columns.now no_members }
    ensures { IfOk result (λ all. all ≡ true → IsRead columns.now reader.old reader.new found.new) }
{
    let mut likely = 0;
    'members: loop {
        let Ok(key) = reader.next_key() else {
            return Ok(false);
        };
        let Some(name) = key else {
            return Ok(true);
        };
        let Some(token) = reader.next() else {
            return Ok(false);
        };
        let place = place_of(columns, name, likely);
        if !put(alloc, found, spare, place, token)? {
            return Ok(false);
        }
        likely = after(place, likely);
    }
}

/// The place of the column of a name. Messages mostly have their keys in the order of the schema, so the likely
/// place is looked at first.
#[tactic(auto, using(crate::proofs::Flat::named_here))]
fn place_of(columns: &[Column], name: &str, likely: usize) -> Option<usize>
    ensures { IsPlaceOf columns.now name.now result }
{
    if likely < columns.len() && name == columns[likely].name.as_str() {
        return Some(likely);
    }
    first_place_of(columns, name)
}

#[tactic(auto, using(crate::proofs::Flat::named_here))]
fn first_place_of(columns: &[Column], name: &str) -> Option<usize>
    ensures { IsPlaceOf columns.now name.now result }
{
    for i in 0..columns.len() {
        if name == columns[i].name.as_str() {
            return Some(i);
        }
    }
    None
}

/// The place behind one that was found.
fn after(place: Option<usize>, likely: usize) -> usize {
    match place {
        Some(place) => place.wrapping_add(1),
        None => likely,
    }
}

/// Puts a value at its place; where it has none, it is only looked at. False where it is no scalar.
fn put(
    alloc: Global,
    found: &mut [Option<Json>],
    spare: &mut Spare,
    place: Option<usize>,
    token: Token<'_>,
) -> Result<bool, AllocError>
    requires { IfSome place (λ i. i < length found.old) }
    ensures { IfOk result (λ scalar. scalar ≡ true → Puts place (scalar_of (token_of token.entry)) (data_of found.old) (data_of found.new)) }
{
    let Some(i) = place else {
        return Ok(is_scalar(token));
    };
    match scalar(alloc, spare, token)? {
        Some(json) => {
            found[i] = Some(json);
            Ok(true)
        }
        None => Ok(false),
    }
}

fn is_scalar(token: Token<'_>) -> bool
    ensures { result ≡ is_some (scalar_of (token_of token.entry)) }
{
    match token {
        Token::String(_) | Token::Bool(_) | Token::Null => true,
        Token::Number(text) => number(text).is_some(),
        _ => false,
    }
}

/// The value that one token is; None where it is none by itself.
pub(crate) fn scalar(
    alloc: Global,
    spare: &mut Spare,
    token: Token<'_>,
) -> Result<Option<Json>, AllocError>
    ensures { IfOk result (λ json. option_map view json ≡ scalar_of (token_of token.entry)) }
{
    match token {
        Token::String(text) => Ok(Some(Json::String(spare.text(alloc, text)?))),
        Token::Number(text) => Ok(number(text).map(Json::Number)),
        Token::Bool(truth) => Ok(Some(Json::Bool(truth))),
        Token::Null => Ok(Some(Json::Null)),
        _ => Ok(None),
    }
}

/// The number that a token of JSON writes; None beyond the greatest float.
fn number(text: &str) -> Option<Number>
    ensures { option_map number_view result ≡ number_of text.now }
{
    let bytes = text.as_bytes();
    if has_minus(bytes) {
        negative(&Numeral::scan(&bytes[1..]))
    } else {
        unsigned(&Numeral::scan(bytes))
    }
}

fn has_minus(bytes: &[u8]) -> bool
    ensures value { result ≡ (slice_index bytes.now 0 == 45) }
    ensures len { IsTrue result → 0 < length bytes.now }
{
    !bytes.is_empty() && bytes[0] == b'-'
}

fn unsigned(numeral: &Numeral<'_>) -> Option<Number>
    ensures { option_map number_view result ≡ number_from false numeral.now }
{
    match numeral.to_u64() {
        Some(n) => Some(Number::from(n)),
        None => nearest(false, numeral),
    }
}

fn negative(numeral: &Numeral<'_>) -> Option<Number>
    ensures { option_map number_view result ≡ number_from true numeral.now }
{
    match numeral.to_i64(true) {
        Some(n) if n < 0 => Some(Number::from(n)),
        _ => nearest(true, numeral),
    }
}

fn nearest(negative: bool, numeral: &Numeral<'_>) -> Option<Number>
    ensures { option_map number_view result ≡ float_of negative numeral.now }
{
    Number::from_f64(numeral.to_float::<f64>(negative))
}

/// The row of what was found, which is taken out.
fn row(
    alloc: Global,
    columns: &[Column],
    found: &mut [Option<Json>],
    spare: &mut Spare,
) -> Result<Option<Row>, AllocError>
    requires { length found.old ≡ length columns.now }
    ensures { IfOk result (λ row. row ≡ option_map (λ vs. record { values = vs }) (cells_from columns.now (data_of found.old))) }
{
    let mut values = spare.values(alloc);
    for i in 0..columns.len() {
        match cell(alloc, &columns[i], found[i].take())? {
            Some(value) => values.push(value)?,
            None => return Ok(None),
        }
    }
    Ok(Some(Row { values }))
}
