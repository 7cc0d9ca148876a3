//! Texts in a workflow command of GitHub Actions.
ghost use Rattle.std.specs.Prelude.{◌≡◌, ◌++◌, IfOk, OnOk, string_bytes};
ghost use Rattle.std.specs.List.{flat_map};
ghost use Rattle.std.specs.Str.{chars};
ghost use Rattle.edit_shown.specs.Annotations as spec;

use std::alloc::{AllocError, Global};

/// Appends a character of a message: `%` and line ends as `%` and two digits.
fn push_data_char(to: &mut String, c: char) -> Result<(), AllocError>
    ensures { OnOk result (string_bytes to.new ≡ string_bytes to.old ++ spec.data_char c) }
{
    match c {
        '%' => to.push_str("%25"),
        '\r' => to.push_str("%0D"),
        '\n' => to.push_str("%0A"),
        _ => to.push(c),
    }
}

/// Appends a character of a property: also `:` and `,` as `%` and two digits.
fn push_property_char(to: &mut String, c: char) -> Result<(), AllocError>
    ensures { OnOk result (string_bytes to.new ≡ string_bytes to.old ++ spec.property_char c) }
{
    match c {
        ':' => to.push_str("%3A"),
        ',' => to.push_str("%2C"),
        _ => push_data_char(to, c),
    }
}

/// Appends a text as a message.
pub(crate) fn push_data(to: &mut String, text: &str) -> Result<(), AllocError>
    ensures { OnOk result (string_bytes to.new ≡ string_bytes to.old ++ spec.data_text text.now) }
{
    for c in text.chars() {
        push_data_char(to, c)?;
    }
    Ok(())
}

/// Appends a text as a property.
fn push_property(to: &mut String, text: &str) -> Result<(), AllocError>
    ensures { OnOk result (string_bytes to.new ≡ string_bytes to.old ++ spec.property_text text.now) }
{
    for c in text.chars() {
        push_property_char(to, c)?;
    }
    Ok(())
}

/// A text as a property.
pub(crate) fn property_text(alloc: Global, text: &str) -> Result<String, AllocError>
    ensures { IfOk result (λ s. string_bytes s ≡ spec.property_text text.now) }
{
    let mut property = String::new(alloc);
    push_property(&mut property, text)?;
    Ok(property)
}
