//! Fields of a type that is known.
ghost use Rattle.std.specs.Prelude.{◌≡◌, option_map};
ghost use Rattle.serde_json.specs.View.{view, items_view};
ghost use Rattle.pull_patch.specs.Fields as fields;

use serde_json::Value;

/// The text that a field is.
pub(crate) fn text_at<'v>(value: &'v Value, name: &str) -> Option<&'v str>
    ensures { option_map (λ s. s.now) result ≡ fields.text_at name.now (view value.now) }
{
    match value.get(name) {
        Some(found) => found.as_str(),
        None => None,
    }
}

/// The array that a field is.
pub(crate) fn array_at<'v>(value: &'v Value, name: &str) -> Option<&'v Vec<Value>>
    ensures { option_map (λ v. items_view v.now.items) result ≡ fields.array_at name.now (view value.now) }
{
    match value.get(name) {
        Some(found) => found.as_array(),
        None => None,
    }
}
