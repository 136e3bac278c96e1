//! The members of the objects that bodies are.
ghost use Rattle.std.specs.Prelude.{◌≡◌, IfOk};
ghost use Rattle.std.specs.Option.{option_map};
ghost use Rattle.serde_json.specs.View.{items_view, view};
ghost use Rattle.compliance_core.specs.Plans.{category_named, guideline_named};
ghost use Rattle.desk_json.specs.Bodies.{category_in, guideline_in, has_members, text_at, text_or_null, text_or_null_at, texts_at, texts_of};

use misra_base::{Category, Guideline, Name, NameList};
use serde_json::Value;
use std::alloc::{AllocError, Global};
use std::str::FromStr;

/// Whether the body is an object of so many members.
#[tactic(auto, using(crate::proofs::Parsed::counted))]
pub fn has_size(body: &Value, size: usize) -> bool
    ensures { result ≡ has_members size (view body.now) }
{
    match body.as_object() {
        Some(members) => members.len() == size,
        None => false,
    }
}

/// The member of this key, where it is a text.
fn text<'v>(body: &'v Value, key: &str) -> Option<&'v str>
    ensures { option_map (λ text. text.now) result ≡ text_at key.now (view body.now) }
{
    match body.get(key) {
        Some(value) => value.as_str(),
        None => None,
    }
}

/// The member of this key as a name.
pub fn name(alloc: Global, body: &Value, key: &str) -> Result<Option<Name>, AllocError>
    ensures { IfOk result (λ name. name ≡ text_at key.now (view body.now)) }
{
    match text(body, key) {
        Some(text) => Ok(Some(Name::from_bytes(alloc, text.as_bytes())?)),
        None => Ok(None),
    }
}

/// The texts of a list as names.
#[tactic(auto, using(crate::proofs::Parsed::texts_next, crate::proofs::Parsed::texts_stop, crate::proofs::Parsed::texts_end, crate::proofs::Parsed::onto_none))]
fn texts(alloc: Global, items: &[Value]) -> Result<Option<NameList>, AllocError>
    ensures { IfOk result (λ names. names ≡ texts_of (items_view items.now)) }
{
    let mut names = Vec::new(alloc);
    for item in items {
        match item.as_str() {
            Some(text) => names.push(Name::from_bytes(alloc, text.as_bytes())?)?,
            None => return Ok(None),
        }
    }
    Ok(Some(NameList::from_vec(names)))
}

/// The member of this key as a list of names.
pub fn names(alloc: Global, body: &Value, key: &str) -> Result<Option<NameList>, AllocError>
    ensures { IfOk result (λ names. names ≡ texts_at key.now (view body.now)) }
{
    let Some(value) = body.get(key) else {
        return Ok(None);
    };
    match value.as_array() {
        Some(items) => texts(alloc, items),
        None => Ok(None),
    }
}

/// The value as a name, or as none where it is null.
fn nullable(alloc: Global, value: &Value) -> Result<Option<Option<Name>>, AllocError>
    ensures { IfOk result (λ name. name ≡ text_or_null (view value.now)) }
{
    match value {
        Value::Null => Ok(Some(None)),
        Value::String(text) => Ok(Some(Some(Name::from_bytes(alloc, text.as_bytes())?))),
        _ => Ok(None),
    }
}

/// The member of this key as a name, or as none where it is null.
pub fn name_or_null(
    alloc: Global,
    body: &Value,
    key: &str,
) -> Result<Option<Option<Name>>, AllocError>
    ensures { IfOk result (λ name. name ≡ text_or_null_at key.now (view body.now)) }
{
    match body.get(key) {
        Some(value) => nullable(alloc, value),
        None => Ok(None),
    }
}

/// The guideline that is written so.
fn read_guideline(name: &str) -> Option<Guideline>
    ensures { result ≡ guideline_named name.now }
{
    Guideline::from_str(name).ok()
}

/// The category that is written so.
fn read_category(word: &str) -> Option<Category>
    ensures { result ≡ category_named word.now }
{
    Category::from_str(word).ok()
}

/// The guideline that the body names.
pub fn guideline(body: &Value) -> Option<Guideline>
    ensures { result ≡ guideline_in (view body.now) }
{
    match text(body, "guideline") {
        Some(name) => read_guideline(name),
        None => None,
    }
}

/// The category that the body names.
pub fn category(body: &Value) -> Option<Category>
    ensures { result ≡ category_in (view body.now) }
{
    match text(body, "category") {
        Some(word) => read_category(word),
        None => None,
    }
}
