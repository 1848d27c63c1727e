//! Readers for the parts of JSON values.
ghost use Rattle.std.specs.Prelude.{◌≡◌, ◌≤◌, Option, IfOk, IfSome, option_map};
ghost use Rattle.serde_json.specs.Data.{Data};
ghost use Rattle.serde_json.specs.View.{view, items_view};
ghost use Rattle.bs_json.specs.Values.{value_of, whole, whole_to, number_at, number_or, text_at, each};

use bs_board::Id;
use serde_json::Value;
use std::alloc::{AllocError, Global};

/// Parses JSON. `None` if the bytes are no JSON.
#[tactic(auto, using(crate::proofs::Texts::value_of_read, crate::proofs::Texts::value_of_refused))]
pub fn parsed(alloc: Global, line: &[u8]) -> Result<Option<Value>, AllocError>
    ensures { IfOk result (λ o. option_map view o ≡ value_of line.now) }
{
    match Value::from_slice(alloc, line) {
        Ok(value) => Ok(Some(value)),
        Err(e) => {
            if e.is_memory() {
                Err(AllocError)
            } else {
                Ok(None)
            }
        }
    }
}

/// The value as a whole number of at most `most`.
pub fn whole_to(value: &Value, most: u32) -> Option<u32>
    ensures value { result ≡ whole_to most (view value.now) }
    ensures fits { IfSome result (λ n. n ≤ most) }
{
    let number = value.as_u64()?;
    if number <= u64::from(most) {
        Some(number as u32)
    } else {
        None
    }
}

pub fn number_at(value: &Value, name: &str, most: u32) -> Option<u32>
    ensures value { result ≡ number_at name.now most (view value.now) }
    ensures fits { IfSome result (λ n. n ≤ most) }
{
    whole_to(value.get(name)?, most)
}

pub fn byte_at(value: &Value, name: &str, most: u8) -> Option<u8>
    ensures { result ≡ number_at name.now most (view value.now) }
{
    Some(number_at(value, name, u32::from(most))? as u8)
}

/// The member as a whole number of at most `most`; the default if it is left out.
pub fn byte_or(value: &Value, name: &str, most: u8, default: u8) -> Option<u8>
    ensures { result ≡ number_or name.now most default (view value.now) }
{
    match value.get(name) {
        Some(member) => Some(whole_to(member, u32::from(most))? as u8),
        None => Some(default),
    }
}

pub fn text_at<'v>(value: &'v Value, name: &str) -> Option<&'v str>
    ensures { option_map (λ text. text.now) result ≡ text_at name.now (view value.now) }
{
    value.get(name)?.as_str()
}

pub fn id_at(alloc: Global, value: &Value, name: &str) -> Result<Option<Id>, AllocError>
    ensures { IfOk result (λ id. id ≡ text_at name.now (view value.now)) }
{
    match text_at(value, name) {
        Some(text) => Ok(Some(Id::from_str(alloc, text)?)),
        None => Ok(None),
    }
}

/// Types that the items of a list are read as.
pub trait FromItem: Sized + Drop {
    ghost read: { Data → Option Self };

    /// Reads an item. `None` if it is of another type or out of range.
    fn from_item(alloc: Global, item: &Value) -> Result<Option<Self>, AllocError>
        ensures { IfOk result (λ value. value ≡ read (view item.now)) };
}

/// Reads all items. `None` if one of them cannot be read.
pub fn each<T: FromItem>(alloc: Global, items: &[Value]) -> Result<Option<Vec<T>>, AllocError>
    ensures { IfOk result
        (λ all. option_map (λ found. found.items) all ≡ each T.read (items_view items.now)) }
{
    let mut found = Vec::with_capacity(alloc, items.len())?;
    for item in items {
        let Some(value) = T::from_item(alloc, item)? else {
            return Ok(None);
        };
        found.push(value)?;
    }
    Ok(Some(found))
}
