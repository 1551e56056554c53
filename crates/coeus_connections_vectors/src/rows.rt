//! What a row says.

use co_link::FailingCalls;
use serde_json::Value;
use std::alloc::{AllocError, Global};

/// The text of a field, empty where there is none.
pub fn text<'a>(row: &'a Value, name: &str) -> &'a str {
    match row.get(name) {
        Some(value) => value.as_str().unwrap_or(""),
        None => "",
    }
}

/// The number of a field, or another where there is none.
pub fn number_or(row: &Value, name: &str, other: u64) -> u64 {
    match row.get(name) {
        Some(value) => value.as_u64().unwrap_or(other),
        None => other,
    }
}

/// The members of a field, none where there is no list.
pub fn list<'a>(row: &'a Value, name: &str) -> &'a [Value] {
    match row.get(name).and_then(Value::as_array) {
        Some(members) => members.as_slice(),
        None => &[],
    }
}

/// Puts the bytes that a text spells: each character is the byte of its number.
pub fn put_bytes(bytes: &mut Vec<u8>, text: &str) -> Result<(), AllocError> {
    for c in text.chars() {
        bytes.push((c as u32 & 255) as u8)?;
    }
    Ok(())
}

/// The input of a connection: its parts, each as often as it says.
pub fn input_of(alloc: Global, row: &Value) -> Result<Vec<u8>, AllocError> {
    let mut bytes = Vec::new(alloc);
    for part in list(row, "input") {
        for _ in 0..number_or(part, "times", 1) {
            put_bytes(&mut bytes, text(part, "text"))?;
        }
    }
    Ok(bytes)
}

/// The calls that fail: the first one where the field says so.
pub fn failing(alloc: Global, row: &Value, name: &str) -> Result<FailingCalls, AllocError> {
    let mut numbers = Vec::new(alloc);
    if text(row, "fails") == name {
        numbers.push(0)?;
    }
    Ok(FailingCalls::new(numbers))
}
