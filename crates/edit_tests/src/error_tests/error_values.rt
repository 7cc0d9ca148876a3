//! Builds the error with a number, from the fields in a row.
use crate::assertion_helpers::{push, text as text_of};
use clap::Command;
use edit_base::{DeviceCall, Error, MergedCommand, MissingKind, MissingNames};
use std::alloc::{AllocError, Global};
use std::io;
use std::io::ErrorKind;
use std::process::Abort;

/// An error without fields.
fn error_without_fields(number: u32) -> Option<Error> {
    match number {
        2 => Some(Error::NotUtf8),
        5 => Some(Error::NoManifest),
        6 => Some(Error::NoPath),
        10 => Some(Error::MissingVersion),
        11 => Some(Error::VersionNotString),
        12 => Some(Error::InvalidDependency),
        13 => Some(Error::NoVersionPlace),
        17 => Some(Error::PrereleaseScheme),
        26 => Some(Error::BadRustVersion),
        34 => Some(Error::MissingRegistry),
        35 => Some(Error::InvalidUrl),
        36 => Some(Error::Metadata),
        38 => Some(Error::VirtualManifest),
        42 => Some(Error::Locked),
        45 => Some(Error::Output),
        46 => Some(Error::from(AllocError)),
        48 => Some(Error::from(io::Error::from(ErrorKind::PermissionDenied))),
        49 => Some(Error::EditRefused),
        50 => Some(Error::Policy),
        _ => None,
    }
}

/// An error with number fields, or with a constant text.
fn error_with_numbers(number: u32, arg: &str) -> Option<Error> {
    match number {
        1 => Some(Error::NotToml { at: 3 }),
        3 => Some(Error::Device(match arg {
            "kind" => DeviceCall::Kind,
            "read" => DeviceCall::Read,
            _ => DeviceCall::Write,
        })),
        18 => Some(Error::NumberAtEnd {
            major: 1,
            minor: 2,
            patch: u64::MAX,
        }),
        30 => Some(Error::IndexLine { line: 7 }),
        44 => Some(Error::Merged(match arg {
            "add" => MergedCommand::Add,
            _ => MergedCommand::Rm,
        })),
        _ => None,
    }
}

/// An error with one text field.
fn error_with_one_text(number: u32, text: String) -> Option<Error> {
    match number {
        4 => Some(Error::NotAbsolute { path: text }),
        7 => Some(Error::ManifestNotFound { dir: text }),
        8 => Some(Error::NoTable { step: text }),
        14 => Some(Error::InvalidRequirement { text }),
        15 => Some(Error::Unsupported { comparator: text }),
        19 => Some(Error::InvalidMetadata { text }),
        22 => Some(Error::WorkspaceFalse { key: text }),
        23 => Some(Error::UnknownSource { key: text }),
        24 => Some(Error::OldDefaultFeatures { key: text }),
        25 => Some(Error::UnknownEntry { key: text }),
        27 => Some(Error::Scheme { scheme: text }),
        28 => Some(Error::IndexPath { address: text }),
        29 => Some(Error::BadCrateName { name: text }),
        31 => Some(Error::Config { path: text }),
        32 => Some(Error::RegistryNotFound { key: text }),
        33 => Some(Error::SourceNotFound { key: text }),
        37 => Some(Error::FolderTwice { path: text }),
        _ => None,
    }
}

/// An error with two text fields.
fn error_with_two_texts(number: u32, first: String, second: String) -> Option<Error> {
    match number {
        9 => Some(Error::NoDependency {
            name: first,
            path: second,
        }),
        16 => Some(Error::ReleaseLevel {
            level: first,
            version: second,
        }),
        20 => Some(Error::InvalidName {
            name: first,
            characters: second,
        }),
        40 => Some(Error::CannotExclude {
            excluded: first,
            inheriting: second,
        }),
        41 => Some(Error::Downgrade {
            current: first,
            requested: second,
        }),
        _ => None,
    }
}

/// An error with a list of names.
fn error_with_names(number: u32, names: Vec<String>) -> Option<Error> {
    match number {
        39 => Some(Error::PackagesMissing(MissingNames {
            kind: MissingKind::Package,
            names,
        })),
        43 => Some(Error::DependenciesMissing(MissingNames {
            kind: MissingKind::Dependency,
            names,
        })),
        _ => None,
    }
}

/// The error of a command line with an unknown option.
fn command_line(alloc: Global) -> Option<Error> {
    let command = Command::new(alloc, "edit");
    match command.try_get_matches_from(&["edit", "--x"]) {
        Ok(_) => None,
        Err(error) => Some(Error::from(error)),
    }
}

/// `Error::InvalidType`, where a string is expected.
fn of_type(rt: &impl Abort, alloc: Global, key: &str, dep: &str) -> Error {
    Error::InvalidType {
        actual: text_of(rt, alloc, "integer"),
        key: text_of(rt, alloc, key),
        expected: text_of(rt, alloc, "string"),
        dep: text_of(rt, alloc, dep),
    }
}

/// An error with two text fields, or more.
fn of_parts(
    rt: &impl Abort,
    alloc: Global,
    number: u32,
    first: &str,
    second: &str,
) -> Option<Error> {
    if number == 21 {
        return Some(of_type(rt, alloc, first, second));
    }
    error_with_two_texts(
        number,
        text_of(rt, alloc, first),
        text_of(rt, alloc, second),
    )
}

/// The names in an error.
fn names_of(rt: &impl Abort, alloc: Global, parts: &str) -> Vec<String> {
    let mut names = Vec::new(alloc);
    'parts: for name in parts.split('@') {
        push(rt, &mut names, text_of(rt, alloc, name));
    }
    names
}

/// An error with one text field, or several.
fn error_with_texts(rt: &impl Abort, alloc: Global, number: u32, parts: &str) -> Option<Error> {
    if number == 39 || number == 43 {
        return error_with_names(number, names_of(rt, alloc, parts));
    }
    match parts.split_once('@') {
        Some((first, second)) => of_parts(rt, alloc, number, first, second),
        None => error_with_one_text(number, text_of(rt, alloc, parts)),
    }
}

/// The error with a number.
pub(super) fn error_of_number(rt: &impl Abort, alloc: Global, number: u32, parts: &str) -> Error {
    let made = match number {
        47 => command_line(alloc),
        1 | 3 | 18 | 30 | 44 => error_with_numbers(number, parts),
        _ if parts.is_empty() => error_without_fields(number),
        _ => error_with_texts(rt, alloc, number, parts),
    };
    made.expect(rt, "a number from 1 to 50")
}
