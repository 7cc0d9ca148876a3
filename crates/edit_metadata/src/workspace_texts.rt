//! Parses the output of `cargo metadata` token by token, without building a tree of its members.
//!
//! Output that this reader does not accept is parsed again by way of a tree; only that decides whether the
//! output is malformed.
ghost use Rattle.std.specs.Prelude.{◌≡◌, ◌<◌, Some, length, IfOk, IfSome};
ghost use Rattle.edit_json.specs.Reads.{ReadsMembers, ReadsValue};
ghost use Rattle.edit_metadata.specs.Texts.{HasWorkspaceTexts};
ghost use Rattle.serde_json.specs.Data.{Data, Members, object, put};
ghost use Rattle.serde_json.specs.Read.{read};

use crate::package_texts::{PackageTexts, read_packages, read_texts};
use edit_json::{read_text, skip_value};
use json::{Reader, Scratch, Token};
use std::alloc::{AllocError, Global};

/// The members of the output that a `Workspace` is built from; `None` for one that has not been read.
#[derive(Drop)]
pub(crate) struct WorkspaceTexts<'a> {
    pub(crate) root: Option<&'a str>,
    /// The ids of the workspace's members.
    pub(crate) ids: Option<Vec<&'a str>>,
    pub(crate) packages: Option<Vec<PackageTexts<'a>>>,
}

/// Reads the value of a key into its field, or skips it.
fn read_member<'a>(
    alloc: Global,
    reader: &mut Reader<'a>,
    key: &str,
    texts: WorkspaceTexts<'a>,
) -> Result<Option<WorkspaceTexts<'a>>, AllocError>
    ensures shorter { IfOk result (λ o. IfSome o (λ _. length reader.new < length reader.old)) }
    ensures value { IfOk result (λ o. IfSome o (λ w. (d : Data) × ReadsValue 126 reader.old d reader.new
        × ((ms : Members) → HasWorkspaceTexts (object ms) texts.entry
        → HasWorkspaceTexts (object (put key.now d ms)) w))) }
{
    if key == "workspace_root" {
        let Some(text) = read_text(reader) else {
            return Ok(None);
        };
        return Ok(Some(WorkspaceTexts {
            root: Some(text),
            ..texts
        }));
    }
    if key == "workspace_members" {
        let Some(ids) = read_texts(alloc, reader)? else {
            return Ok(None);
        };
        return Ok(Some(WorkspaceTexts {
            ids: Some(ids),
            ..texts
        }));
    }
    if key == "packages" {
        let Some(packages) = read_packages(alloc, reader)? else {
            return Ok(None);
        };
        return Ok(Some(WorkspaceTexts {
            packages: Some(packages),
            ..texts
        }));
    }
    match skip_value(reader, 126) {
        Some(()) => Ok(Some(texts)),
        None => Ok(None),
    }
}

/// Reads the members of the output after its opening brace, up to and including the closing one.
fn read_members<'a>(
    alloc: Global,
    reader: &mut Reader<'a>,
) -> Result<Option<WorkspaceTexts<'a>>, AllocError>
    ensures value { IfOk result (λ o. IfSome o (λ w. (ms : Members)
        × ReadsMembers 126 reader.old ms reader.new
        × HasWorkspaceTexts (object ms) w)) }
{
    let mut texts = WorkspaceTexts {
        root: None,
        ids: None,
        packages: None,
    };
    loop {
        match reader.next_key() {
            Ok(Some(key)) => match read_member(alloc, reader, key, texts)? {
                Some(more) => texts = more,
                None => return Ok(None),
            },
            Ok(None) => return Ok(Some(texts)),
            Err(_) => return Ok(None),
        }
    }
}

/// Parses the output of `cargo metadata`; `None` where it has to be parsed by way of a tree.
pub(crate) fn read_metadata<'a>(
    alloc: Global,
    text: &'a str,
    scratch: &'a mut Scratch,
) -> Result<Option<WorkspaceTexts<'a>>, AllocError>
    ensures value { IfOk result (λ o. IfSome o (λ w. (ms : Members)
        × (read text.now ≡ Some (object ms)) × HasWorkspaceTexts (object ms) w)) }
{
    let Ok(mut reader) = Reader::new(text, scratch) else {
        return Ok(None);
    };
    let Some(Token::BeginObject) = reader.next() else {
        return Ok(None);
    };
    let Some(texts) = read_members(alloc, &mut reader)? else {
        return Ok(None);
    };
    match reader.next() {
        None => Ok(Some(texts)),
        Some(_) => Ok(None),
    }
}
