//! Reads the members of JSON objects.
ghost use Rattle.std.specs.Prelude.{◌≡◌, map, option_map};
ghost use Rattle.edit_metadata.specs.Metadata.{is_absolute, is_root_path, maybe_text_at, text_at, values_at};
ghost use Rattle.serde_json.specs.View.{view};

use serde_json::Value;

/// The string of a member; `None` where it is absent or holds no string.
pub(crate) fn text_at<'a>(value: &'a Value, name: &str) -> Option<&'a str>
    ensures { option_map (λ s. s.now) result ≡ text_at name.now (view value.now) }
{
    match value.get(name) {
        Some(member) => member.as_str(),
        None => None,
    }
}

/// The string of a member that may be absent or null; `None` where it holds anything else.
pub(crate) fn maybe_text_at<'a>(value: &'a Value, name: &str) -> Option<Option<&'a str>>
    ensures { option_map (λ r. option_map (λ s. s.now) r) result
        ≡ maybe_text_at name.now (view value.now) }
{
    match value.get(name) {
        None | Some(Value::Null) => Some(None),
        Some(Value::String(text)) => Some(Some(text.as_str())),
        Some(_) => None,
    }
}

/// The elements of a member; `None` where it is absent or holds no array.
pub(crate) fn values_at<'a>(value: &'a Value, name: &str) -> Option<&'a [Value]>
    ensures { option_map (λ v. map view v.now) result ≡ values_at name.now (view value.now) }
{
    match value.get(name) {
        Some(member) => match member.as_array() {
            Some(values) => Some(values.as_slice()),
            None => None,
        },
        None => None,
    }
}

/// Whether a path begins with `/`.
pub(crate) fn is_absolute(path: &str) -> bool
    ensures { result ≡ is_absolute path.now }
{
    path.starts_with('/')
}

/// Whether a path begins with `/` and has no line end.
pub(crate) fn is_root_path(path: &str) -> bool
    ensures { result ≡ is_root_path path.now }
{
    is_absolute(path) && !path.as_bytes().contains(&b'\n')
}
