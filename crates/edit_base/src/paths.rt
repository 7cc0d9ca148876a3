//! Paths as texts: no file is opened.
ghost use Rattle.std.specs.Prelude.{◌≡◌, ◌≤◌, ◌↔◌, IsTrue, IfOk, IfErr, string_bytes, codes, length, take, drop, replicate};
ghost use Rattle.edit_base.specs.Errors.{IsMemory};
ghost use Rattle.edit_base.specs.Paths.{joined, parts_of, texts, absolute, IsEmptyOrDot, Named, Normal, IsNormalOf, IsFolderOf, BeginApart, relative_text, IsRelative};

use crate::errors::CargoResult;
use std::alloc::{AllocError, Global};

/// `path` where it is absolute, else `path` below `base`, with one slash between them.
///
/// No slash is added where `base` is empty or ends in one.
pub fn join(alloc: Global, base: &str, path: &str) -> CargoResult<String>
    ensures text { IfOk result (λ s. string_bytes s ≡ joined base.now path.now) }
    ensures error { IfErr result IsMemory }
{
    if path.starts_with('/') {
        return Ok(String::from_str(alloc, path)?);
    }
    if base.is_empty() || base.ends_with('/') {
        return Ok(format!(in alloc; "{base}{path}")?);
    }
    Ok(format!(in alloc; "{base}/{path}")?)
}

/// The parts of a text between slashes.
fn parts<'a>(alloc: Global, path: &'a str) -> Result<Vec<&'a str>, AllocError>
    ensures { IfOk result (λ v. texts v.items ≡ parts_of path.now) }
{
    path.split('/').collect(alloc)
}

/// The names that are left of the parts of an absolute path.
fn collapsed_names<'a>(alloc: Global, parts: &[&'a str]) -> Result<Vec<&'a str>, AllocError>
    ensures { IfOk result (λ v. Normal (texts parts.now) (texts v.items)) }
{
    let mut names = Vec::new(alloc);
    for part in parts {
        if is_empty_or_dot(part) {
            continue;
        }
        if *part == ".." {
            names.pop();
        } else {
            names.push(*part)?;
        }
    }
    Ok(names)
}

/// Whether a part of a path leads nowhere else.
fn is_empty_or_dot(part: &str) -> bool
    ensures { IsTrue result ↔ IsEmptyOrDot part.now }
{
    part.is_empty() || part == "."
}

/// The absolute path of these names.
fn absolute_text(alloc: Global, names: &[&str]) -> Result<String, AllocError>
    ensures { IfOk result (λ s. string_bytes s ≡ absolute (texts names.now)) }
{
    if names.is_empty() {
        return String::from_str(alloc, "/");
    }
    let mut text = String::new(alloc);
    for name in names {
        text.push('/')?;
        text.push_str(name)?;
    }
    Ok(text)
}

/// An absolute path without empty parts and the parts `.` and `..`: each `..` drops the part before it, and
/// none at the root.
pub fn normal(alloc: Global, path: &str) -> CargoResult<String>
    ensures text { IfOk result (λ s. IsNormalOf path.now (string_bytes s)) }
    ensures error { IfErr result IsMemory }
{
    let parts = parts(alloc, path)?;
    let names = collapsed_names(alloc, &parts)?;
    Ok(absolute_text(alloc, &names)?)
}

/// The folder that a path lies in: the text before the last slash, and `/` where that is empty or no slash is
/// there.
pub fn folder(path: &str) -> &str
    ensures { IsFolderOf path.now result.now }
{
    match path.rsplit_once('/') {
        None => "/",
        Some((before, _after)) => {
            if before.is_empty() {
                return "/";
            }
            before
        }
    }
}

/// The parts of a path that name something.
fn named_parts<'a>(alloc: Global, parts: &[&'a str]) -> Result<Vec<&'a str>, AllocError>
    ensures { IfOk result (λ v. Named (texts parts.now) (texts v.items)) }
{
    let mut names = Vec::new(alloc);
    for part in parts {
        if is_empty_or_dot(part) {
            continue;
        }
        names.push(*part)?;
    }
    Ok(names)
}

/// How many parts both lists have in common at their fronts.
fn common_count(to: &[&str], from: &[&str]) -> usize
    ensures within_to { result ≤ length to.now }
    ensures within_from { result ≤ length from.now }
    ensures same { texts (take result to.now) ≡ texts (take result from.now) }
    ensures longest { BeginApart (texts (drop result to.now)) (texts (drop result from.now)) }
{
    let mut count = 0;
    while count < to.len() && count < from.len() {
        if to[count] != from[count] {
            return count;
        }
        count += 1;
    }
    count
}

/// As many steps up as this.
fn steps_up(alloc: Global, count: usize) -> Result<Vec<&'static str>, AllocError>
    ensures { IfOk result (λ v. texts v.items ≡ replicate count (codes "..")) }
{
    let mut steps = Vec::new(alloc);
    for i in 0..count {
        steps.push("..")?;
    }
    Ok(steps)
}

/// The way up by as many steps, and then down by these names.
fn relative_text(alloc: Global, up: usize, down: &[&str]) -> Result<String, AllocError>
    ensures { IfOk result (λ s. string_bytes s ≡ relative_text up (texts down.now)) }
{
    let mut way = steps_up(alloc, up)?;
    way.extend_from_slice(down)?;
    let text = way.as_slice().join(alloc, "/")?;
    Ok(text)
}

/// The path `to` as seen from the folder `from`, both absolute; `from` has no part `..`.
///
/// The result is empty where both name the same place. A part `..` of `to` is a part like others.
pub fn relative(alloc: Global, to: &str, from: &str) -> CargoResult<String>
    ensures text { IfOk result (λ s. IsRelative to.now from.now (string_bytes s)) }
    ensures error { IfErr result IsMemory }
{
    let to_parts = parts(alloc, to)?;
    let to_names = named_parts(alloc, &to_parts)?;
    let from_parts = parts(alloc, from)?;
    let from_names = named_parts(alloc, &from_parts)?;
    let count = common_count(&to_names, &from_names);
    let up = from_names.len() - count;
    let down = &to_names[count..];
    let text = relative_text(alloc, up, down)?;
    Ok(text)
}
