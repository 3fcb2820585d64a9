ghost use Rattle.std.specs.Prelude.{◌≡◌, IfOk, option_map, option_and_then};
ghost use Rattle.serde_json.specs.Find.{as_str, as_array};
ghost use Rattle.serde_json.specs.Read.{read};
ghost use Rattle.serde_json.specs.View.{view, items_view};
ghost use Rattle.rt_schema.specs.Json.{map_all, if_object, text_at, is_given};
ghost use Rattle.rt_schema.specs.TableText.{inside, texts_at};

use rt_lists::{Items, Text};
use serde_json::Value as Json;
use std::alloc::{AllocError, Global};

/// The JSON object that a text is.
pub(crate) fn read_object(alloc: Global, text: &str) -> Result<Option<Json>, AllocError>
    ensures { IfOk result (λ json. option_map view json
        ≡ option_and_then if_object (read text.now)) }
{
    match Json::from_str(alloc, text) {
        Ok(json) => Ok(if_object(json)),
        Err(error) => if error.is_memory() {
            Err(AllocError)
        } else {
            Ok(None)
        },
    }
}

fn if_object(json: Json) -> Option<Json>
    ensures { option_map view result ≡ if_object (view json) }
{
    if json.is_object() { Some(json) } else { None }
}

/// The value that may be there, lent.
pub(crate) fn lent(found: &Option<Json>) -> Option<&Json>
    ensures { option_map (λ json. view json.now) result ≡ option_map view found.now }
{
    match found {
        Some(json) => Some(json),
        None => None,
    }
}

/// A value that is an object.
pub(crate) fn object_at(found: Option<&Json>) -> Option<&Json>
    ensures { option_map (λ json. view json.now) result
        ≡ option_and_then if_object (option_map (λ json. view json.now) found.entry) }
{
    let json = found?;
    if json.is_object() { Some(json) } else { None }
}

/// The value at a key of an object, where there is such an object.
pub(crate) fn inside<'a>(section: Option<&'a Json>, key: &str) -> Option<&'a Json>
    ensures { option_map (λ json. view json.now) result
        ≡ inside key.now (option_map (λ json. view json.now) section.entry) }
{
    section?.get(key)
}

/// The text at a key of an object.
pub(crate) fn text_at<'a>(json: &'a Json, key: &str) -> Option<&'a str>
    ensures { option_map (λ text. text.now) result ≡ text_at key.now (view json.now) }
{
    json.get(key).and_then(Json::as_str)
}

/// A value that is a text.
pub(crate) fn text_of(found: Option<&Json>) -> Option<&str>
    ensures { option_map (λ text. text.now) result
        ≡ option_and_then as_str (option_map (λ json. view json.now) found.entry) }
{
    found.and_then(Json::as_str)
}

/// Whether a value is there and isn't null.
pub(crate) fn is_given(found: Option<&Json>) -> bool
    ensures { result ≡ is_given (option_map (λ json. view json.now) found.entry) }
{
    match found {
        None | Some(Json::Null) => false,
        Some(_) => true,
    }
}

/// The texts of an array, or no text where nothing is given; None where what is given isn't an array of texts.
pub(crate) fn texts_at(
    alloc: Global,
    found: Option<&Json>,
) -> Result<Option<Items<Text>>, AllocError>
    ensures { IfOk result (λ texts. texts ≡ texts_at (option_map (λ json. view json.now) found.entry)) }
{
    if !is_given(found) {
        return Ok(Some(Items::new(alloc)));
    }
    match array_at(found) {
        Some(items) => texts_of(alloc, items),
        None => Ok(None),
    }
}

fn array_at(found: Option<&Json>) -> Option<&Vec<Json>>
    ensures { option_map (λ items. items_view items.now.items) result
        ≡ option_and_then as_array (option_map (λ json. view json.now) found.entry) }
{
    found?.as_array()
}

fn texts_of(alloc: Global, items: &[Json]) -> Result<Option<Items<Text>>, AllocError>
    ensures { IfOk result (λ texts. texts ≡ map_all (λ item. as_str (view item)) items.now) }
{
    let mut texts = Items::new(alloc);
    for item in items {
        let Some(text) = item.as_str() else {
            return Ok(None);
        };
        texts.push(Text::copied_from(alloc, text)?)?;
    }
    Ok(Some(texts))
}
