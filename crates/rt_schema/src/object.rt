ghost use Rattle.std.specs.Prelude.{◌≡◌, IfOk, option_map, option_and_then};
ghost use Rattle.serde_json.specs.Read.{read};
ghost use Rattle.serde_json.specs.View.{view};
ghost use Rattle.rt_schema.specs.Json.{if_object, text_at, is_given, is_false};

use serde_json::Value as Json;
use std::alloc::{AllocError, Global};

/// The JSON object that a text is.
pub(crate) fn read_object(alloc: Global, text: &str) -> Result<Option<Json>, AllocError>
    ensures { IfOk result (λ json. option_map view json
        ≡ option_and_then if_object (read text.now)) }
{
    match Json::from_str(alloc, text) {
        Ok(json) => Ok(if_object(json)),
        Err(error) => if error.is_memory() {
            Err(AllocError)
        } else {
            Ok(None)
        },
    }
}

fn if_object(json: Json) -> Option<Json>
    ensures { option_map view result ≡ if_object (view json) }
{
    if json.is_object() { Some(json) } else { None }
}

/// The text at a key of an object.
pub(crate) fn text_at<'a>(json: &'a Json, key: &str) -> Option<&'a str>
    ensures { option_map (λ text. text.now) result ≡ text_at key.now (view json.now) }
{
    json.get(key).and_then(Json::as_str)
}

/// Whether a value is there and isn't null.
pub(crate) fn is_given(found: Option<&Json>) -> bool
    ensures { result ≡ is_given (option_map (λ json. view json.now) found.entry) }
{
    match found {
        None | Some(Json::Null) => false,
        Some(_) => true,
    }
}

/// Whether a value is there and is false.
pub(crate) fn is_false(found: Option<&Json>) -> bool
    ensures { result ≡ is_false (option_map (λ json. view json.now) found.entry) }
{
    match found {
        Some(Json::Bool(value)) => !*value,
        _ => false,
    }
}
