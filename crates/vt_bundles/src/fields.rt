//! Fields of a `config.json`.
use serde_json::Value;
use std::alloc::{AllocError, Global};
use vt_check::draft::Draft;
use vt_from::words::push_word;

/// The text at a path of the configuration; empty where there is none.
pub fn field<'a>(value: &'a Value, path: &str) -> &'a str {
    match value.pointer(path) {
        Some(Value::String(text)) => text.as_str(),
        _ => "",
    }
}

/// The list at a path of the configuration; empty where there is none.
pub fn list<'a>(value: &'a Value, path: &str) -> &'a [Value] {
    match value.pointer(path) {
        Some(Value::Array(items)) => items.as_slice(),
        _ => &[],
    }
}

/// The number at a path of the configuration.
pub fn number(value: &Value, path: &str) -> Option<u64> {
    value.pointer(path).and_then(Value::as_u64)
}

/// Whether the value at a path of the configuration is true.
pub fn is_true(value: &Value, path: &str) -> bool {
    matches!(value.pointer(path), Some(Value::Bool(true)))
}

/// An item of a list that is a text; empty where it is none.
pub fn item(value: &Value) -> &str {
    match value {
        Value::String(text) => text.as_str(),
        _ => "",
    }
}

/// Whether a list has a text.
pub fn has_item(items: &[Value], wanted: &str) -> bool {
    for value in items {
        if item(value) == wanted {
            return true;
        }
    }
    false
}

/// A text as a word of a script.
pub fn word(alloc: Global, text: &str) -> Result<String, AllocError> {
    let mut word = Draft::new(alloc);
    push_word(&mut word, text.as_bytes());
    word.end()
}

/// A path as a word of a script: absolute, without a slash at its end, and without doubled ones.
pub fn path_word(alloc: Global, path: &str) -> Result<String, AllocError> {
    let mut word = Draft::new(alloc);
    for name in path.split('/') {
        if !name.is_empty() && name != "." {
            word.push_char('/');
            push_word(&mut word, name.as_bytes());
        }
    }
    if word.len() == 0 {
        word.push_char('/');
    }
    word.end()
}
