//! JSON objects (RFC 8259) of texts, numbers, flags and nulls, and the body for a list of them.
ghost use Rattle.std.specs.Prelude.{◌≡◌, IfOk, OnOk, map, option_map};
ghost use Rattle.std.specs.Str.{IsAscii};
ghost use Rattle.exam_types.specs.Refusals.{OnlyMemory};
ghost use Rattle.exam_request.specs.Json as json;
ghost use Rattle.exam_request.specs.Values.{data_of, object_data};
ghost use Rattle.serde_json.specs.Data.{put};
ghost use Rattle.serde_json.specs.View.{members_view, view};

use exam_types::Refusal;
use serde_json::{Map, Value};
use std::alloc::Global;
use std::str;

/// An object that is being built, its members by name.
pub type Object = Map<String, Value>;

/// Sets a member to a text.
pub fn put_text(object: &mut Object, alloc: Global, name: &str, text: &str) -> Result<(), Refusal>
    ensures ok { OnOk result (members_view object.new.entries
        ≡ put name.now (data_of (json.text text.now)) (members_view object.old.entries)) }
    ensures memory { OnlyMemory result }
{
    let value = Value::try_from_str(alloc, text)?;
    Ok(serde_json::put(object, alloc, name, value)?)
}

/// Sets a member to a text, or to null if there is none.
pub fn put_text_or_null(
    object: &mut Object,
    alloc: Global,
    name: &str,
    text: Option<&str>,
) -> Result<(), Refusal>
    ensures ok { OnOk result (members_view object.new.entries
        ≡ put name.now (data_of (json.or_null json.text (option_map (λ t. t.now) text.entry)))
        (members_view object.old.entries)) }
    ensures memory { OnlyMemory result }
{
    match text {
        Some(text) => put_text(object, alloc, name, text),
        None => Ok(serde_json::put(object, alloc, name, Value::Null)?),
    }
}

/// Sets a member to a number.
pub fn put_number(
    object: &mut Object,
    alloc: Global,
    name: &str,
    number: u32,
) -> Result<(), Refusal>
    ensures ok { OnOk result (members_view object.new.entries
        ≡ put name.now (data_of (json.number number)) (members_view object.old.entries)) }
    ensures memory { OnlyMemory result }
{
    Ok(serde_json::put(object, alloc, name, Value::from(number))?)
}

/// Sets a member to `true` or `false`.
pub fn put_flag(object: &mut Object, alloc: Global, name: &str, flag: bool) -> Result<(), Refusal>
    ensures ok { OnOk result (members_view object.new.entries
        ≡ put name.now (data_of (json.flag flag)) (members_view object.old.entries)) }
    ensures memory { OnlyMemory result }
{
    Ok(serde_json::put(object, alloc, name, Value::Bool(flag))?)
}

/// Sets a member to a number, or to null if there is none.
pub fn put_number_or_null(
    object: &mut Object,
    alloc: Global,
    name: &str,
    number: Option<u32>,
) -> Result<(), Refusal>
    ensures ok { OnOk result (members_view object.new.entries
        ≡ put name.now (data_of (json.or_null json.number number)) (members_view object.old.entries)) }
    ensures memory { OnlyMemory result }
{
    match number {
        Some(number) => put_number(object, alloc, name, number),
        None => Ok(serde_json::put(object, alloc, name, Value::Null)?),
    }
}

/// ASCII bytes as text.
pub fn ascii_text(bytes: &[u8]) -> &str
    requires { IsAscii bytes.now }
    ensures { result.now ≡ bytes.now }
{
    match str::from_utf8(bytes) {
        Ok(text) => text,
        Err(_) => unreachable!(),
    }
}

/// The body with these objects in a list under that name.
pub fn list_body(alloc: Global, name: &str, rows: Vec<Value>) -> Result<Vec<u8>, Refusal>
    ensures ok { IfOk result (λ body. (all : _) → map view rows.items ≡ map object_data all
        → body.items ≡ json.list_body name.now all) }
    ensures memory { OnlyMemory result }
{
    let mut object = Map::new(alloc);
    serde_json::put(&mut object, alloc, name, Value::Array(rows))?;
    Ok(Value::Object(object).to_vec(alloc)?)
}
