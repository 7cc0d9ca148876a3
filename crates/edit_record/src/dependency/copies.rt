//! Deep copies of strings and of lists of strings.
ghost use Rattle.std.specs.Prelude.{◌≡◌, ◌++◌, [], None, Some, IfOk, option_copied, option_map, string_bytes, unwrap_or};
ghost use Rattle.edit_record.specs.RecordViews.{texts_view};

use std::alloc::{AllocError, Global};

/// Returns a copy of a string, if there is one.
pub(crate) fn clone_text(text: Option<&String>) -> Result<Option<String>, AllocError>
    ensures { IfOk result (λ o. option_map string_bytes o
        ≡ option_map string_bytes (option_copied text.entry)) }
{
    match text {
        Some(text) => Ok(Some(text.clone()?)),
        None => Ok(None),
    }
}

/// Returns an owned copy of a borrowed string, if there is one.
pub(crate) fn to_owned_text(alloc: Global, text: Option<&str>) -> Result<Option<String>, AllocError>
    ensures { IfOk result (λ o. option_map string_bytes o ≡ option_map (λ s. s.now) text.entry) }
{
    match text {
        Some(text) => Ok(Some(String::from_str(alloc, text)?)),
        None => Ok(None),
    }
}

/// Returns a deep copy of a list of strings, if there is one.
fn clone_text_list(texts: Option<&Vec<String>>) -> Result<Option<Vec<String>>, AllocError>
    ensures { IfOk result (λ o. option_map texts_view o
        ≡ option_map texts_view (option_copied texts.entry)) }
{
    match texts {
        Some(texts) => Ok(Some(texts.clone()?)),
        None => Ok(None),
    }
}

/// Returns copies of two strings, of each if it is there.
pub(crate) fn copied_pair(
    one: Option<&String>,
    other: Option<&String>,
) -> Result<(Option<String>, Option<String>), AllocError>
    ensures one { IfOk result (λ p. option_map string_bytes p.0
        ≡ option_map string_bytes (option_copied one.entry)) }
    ensures other { IfOk result (λ p. option_map string_bytes p.1
        ≡ option_map string_bytes (option_copied other.entry)) }
{
    Ok((clone_text(one)?, clone_text(other)?))
}

/// Returns deep copies of two lists of strings, of each if it is there.
pub(crate) fn copied_lists(
    one: Option<&Vec<String>>,
    other: Option<&Vec<String>>,
) -> Result<(Option<Vec<String>>, Option<Vec<String>>), AllocError>
    ensures one { IfOk result (λ p. option_map texts_view p.0
        ≡ option_map texts_view (option_copied one.entry)) }
    ensures other { IfOk result (λ p. option_map texts_view p.1
        ≡ option_map texts_view (option_copied other.entry)) }
{
    Ok((clone_text_list(one)?, clone_text_list(other)?))
}

/// Appends `new` to `old`, if there is one.
pub fn append_texts(
    old: Option<Vec<String>>,
    mut new: Vec<String>,
) -> Result<Vec<String>, AllocError>
    ensures { IfOk result (λ v. texts_view v
        ≡ unwrap_or (option_map texts_view old) [] ++ texts_view new) }
{
    match old {
        Some(mut texts) => {
            texts.append(&mut new)?;
            Ok(texts)
        }
        None => Ok(new),
    }
}
