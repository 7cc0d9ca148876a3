//! Parses an index line in one pass over its bytes, if it is written as registries write it.
ghost use Rattle.std.specs.Prelude.{◌≡◌, ◌<◌, length, IfSome, Some};
ghost use Rattle.edit_json.specs.Reads.{ReadsMembers, ReadsValue};
ghost use Rattle.edit_sources.specs.LineFields.{HasFields};
ghost use Rattle.serde_json.specs.Data.{Data, Members, object, put};
ghost use Rattle.serde_json.specs.Read.{read};

use crate::line_reader::Fields;
use edit_json::{Scanner, SkippedValue};

/// What was skipped at the keys whose values are often the same on one line as on the line before.
#[derive(Drop)]
pub(crate) struct SkippedMembers<'a> {
    dependencies: Option<SkippedValue<'a>>,
    features: Option<SkippedValue<'a>>,
}

impl<'a> SkippedMembers<'a> {
    /// Nothing, as before the first line.
    pub(crate) fn nothing() -> SkippedMembers<'a> {
        SkippedMembers {
            dependencies: None,
            features: None,
        }
    }
}

/// Skips the value of a key: by a comparison where it is what was last skipped at the same key.
#[inline(always)]
fn skip_member<'a>(
    scanner: &mut Scanner<'a>,
    key: &[u8],
    skipped: &mut SkippedMembers<'a>,
) -> Option<()>
    ensures shorter { IfSome result (λ _. length scanner.new < length scanner.old) }
    ensures value { IfSome result (λ _. (d : Data) × ReadsValue 126 scanner.old d scanner.new) }
{
    if key == b"deps".as_slice() {
        return scanner.skip_known_value(126, &mut skipped.dependencies);
    }
    if key == b"features".as_slice() {
        return scanner.skip_known_value(126, &mut skipped.features);
    }
    scanner.skip_value(126)
}

/// Reads the value of a key into its field, or skips it.
#[inline(always)]
fn scan_member<'a>(
    scanner: &mut Scanner<'a>,
    key: &[u8],
    fields: Fields<'a>,
    skipped: &mut SkippedMembers<'a>,
) -> Option<Fields<'a>>
    ensures shorter { IfSome result (λ _. length scanner.new < length scanner.old) }
    ensures value { IfSome result (λ f. (d : Data)
        × ReadsValue 126 scanner.old d scanner.new
        × ((ms : Members) → HasFields fields.entry ms → HasFields f (put key.now d ms))) }
{
    if key == b"name".as_slice() {
        let text = scanner.read_text()?;
        return Some(Fields {
            name: Some(text),
            ..fields
        });
    }
    if key == b"vers".as_slice() {
        let text = scanner.read_text()?;
        return Some(Fields {
            version: Some(text),
            ..fields
        });
    }
    if key == b"yanked".as_slice() {
        let truth = scanner.read_bool()?;
        return Some(Fields {
            yanked: truth,
            ..fields
        });
    }
    if key == b"rust_version".as_slice() {
        let text = scanner.read_optional_text()?;
        return Some(Fields {
            rust_version: text,
            ..fields
        });
    }
    if key == b"pubtime".as_slice() {
        let text = scanner.read_optional_text()?;
        return Some(Fields {
            published: text,
            ..fields
        });
    }
    skip_member(scanner, key, skipped)?;
    Some(fields)
}

/// Reads the members of a line after its opening brace, up to and including the closing one.
fn scan_members<'a>(
    scanner: &mut Scanner<'a>,
    skipped: &mut SkippedMembers<'a>,
) -> Option<Fields<'a>>
    ensures value { IfSome result (λ f. (ms : Members) × ReadsMembers 126 scanner.old ms scanner.new
        × HasFields f ms) }
{
    let mut fields = Fields {
        name: None,
        version: None,
        yanked: false,
        rust_version: None,
        published: None,
    };
    while let Some(key) = scanner.next_key()? {
        fields = scan_member(scanner, key, fields, skipped)?;
    }
    Some(fields)
}

/// Parses a line; `None` where it has to be parsed token by token.
pub(crate) fn scan_fields<'a>(text: &'a str, skipped: &mut SkippedMembers<'a>) -> Option<Fields<'a>>
    ensures value { IfSome result (λ f. (ms : Members)
        × (read text.now ≡ Some (object ms)) × HasFields f ms) }
{
    let mut scanner = Scanner::new(text);
    scanner.begin_object()?;
    let fields = scan_members(&mut scanner, skipped)?;
    if scanner.is_at_end() {
        Some(fields)
    } else {
        None
    }
}
