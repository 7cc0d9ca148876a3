//! Parses an index line without building a tree of its members: by the scanner, or else token by token.
//!
//! A line that neither accepts is parsed again by way of a tree; only that decides whether the line is
//! malformed.
ghost use Rattle.std.specs.Prelude.{◌≡◌, ◌<◌, length, IfSome, Some};
ghost use Rattle.edit_json.specs.Reads.{ReadsMembers, ReadsValue};
ghost use Rattle.edit_sources.specs.LineFields.{HasFields};
ghost use Rattle.serde_json.specs.Data.{Data, Members, object, put};
ghost use Rattle.serde_json.specs.Read.{read};

use crate::line_scanner::{SkippedMembers, scan_fields};
use edit_json::{read_bool, read_optional_text, read_text, skip_value};
use json::{Reader, Scratch, Token};

/// The members of an index line that an entry is made of. Of a repeated key the last value counts.
#[derive(Clone, Copy, Drop)]
pub(crate) struct Fields<'a> {
    pub(crate) name: Option<&'a str>,
    pub(crate) version: Option<&'a str>,
    pub(crate) yanked: bool,
    pub(crate) rust_version: Option<&'a str>,
    /// The text of the time at which the version was published.
    pub(crate) published: Option<&'a str>,
}

/// Reads the value of a key into its field, or skips it.
fn read_member<'a>(reader: &mut Reader<'a>, key: &str, fields: Fields<'a>) -> Option<Fields<'a>>
    ensures shorter { IfSome result (λ _. length reader.new < length reader.old) }
    ensures value { IfSome result (λ f. (d : Data)
        × ReadsValue 126 reader.old d reader.new
        × ((ms : Members) → HasFields fields.entry ms → HasFields f (put key.now d ms))) }
{
    if key == "name" {
        let text = read_text(reader)?;
        return Some(Fields {
            name: Some(text),
            ..fields
        });
    }
    if key == "vers" {
        let text = read_text(reader)?;
        return Some(Fields {
            version: Some(text),
            ..fields
        });
    }
    if key == "yanked" {
        let truth = read_bool(reader)?;
        return Some(Fields {
            yanked: truth,
            ..fields
        });
    }
    if key == "rust_version" {
        let text = read_optional_text(reader)?;
        return Some(Fields {
            rust_version: text,
            ..fields
        });
    }
    if key == "pubtime" {
        let text = read_optional_text(reader)?;
        return Some(Fields {
            published: text,
            ..fields
        });
    }
    skip_value(reader, 126)?;
    Some(fields)
}

/// Reads the members of a line after its opening brace, up to and including the closing one.
fn read_members<'a>(reader: &mut Reader<'a>) -> Option<Fields<'a>>
    ensures value { IfSome result (λ f. (ms : Members) × ReadsMembers 126 reader.old ms reader.new
        × HasFields f ms) }
{
    let mut fields = Fields {
        name: None,
        version: None,
        yanked: false,
        rust_version: None,
        published: None,
    };
    while let Some(key) = reader.next_key().ok()? {
        fields = read_member(reader, key, fields)?;
    }
    Some(fields)
}

/// Parses a line; `None` where it has to be parsed by way of a tree.
pub(crate) fn read_fields<'a: 's, 's>(
    text: &'a str,
    skipped: &mut SkippedMembers<'a>,
    scratch: &'s mut Scratch,
) -> Option<Fields<'s>>
    ensures value { IfSome result (λ f. (ms : Members)
        × (read text.now ≡ Some (object ms)) × HasFields f ms) }
{
    if let Some(fields) = scan_fields(text, skipped) {
        return Some(fields);
    }
    let mut reader = Reader::new(text, scratch).ok()?;
    let Some(Token::BeginObject) = reader.next() else {
        return None;
    };
    let fields = read_members(&mut reader)?;
    match reader.next() {
        None => Some(fields),
        Some(_) => None,
    }
}
