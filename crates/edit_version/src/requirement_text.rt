//! The text of a requirement, raised to a version.
ghost use Rattle.std.specs.Prelude.{◌≡◌, ◌++◌, IfOk, OnOk, find, map, option_copied, string_bytes};
ghost use Rattle.edit_version.specs.Requirement.{comparator_text, dotted, is_inequality, match_caret, upgraded_comparator, requirement_text, sign, starts_with_caret, without_caret};
ghost use Rattle.semver.specs.Identifiers.{comparator_view, parts_of};

use semver::{Comparator, Op, Version};
use std::alloc::{AllocError, Global};

/// The sign that stands before a comparator.
fn sign(op: Op) -> &'static str
    ensures { result.now ≡ sign op }
{
    match op {
        Op::Exact => "=",
        Op::Greater => ">",
        Op::GreaterEq => ">=",
        Op::Less => "<",
        Op::LessEq => "<=",
        Op::Tilde => "~",
        Op::Caret => "^",
        Op::Wildcard => "",
    }
}

/// Writes a number after its dot, where it is there.
fn push_number(out: &mut String, number: Option<u64>) -> Result<(), AllocError>
    ensures { OnOk result (string_bytes out.new ≡ string_bytes out.old ++ dotted number) }
{
    if let Some(number) = number {
        write!(out, ".{number}")?;
    }
    Ok(())
}

fn push_comparator(
    out: &mut String,
    op: Op,
    major: u64,
    minor: Option<u64>,
    patch: Option<u64>,
    pre: &str,
) -> Result<(), AllocError>
    ensures { OnOk result (string_bytes out.new
        ≡ string_bytes out.old ++ comparator_text (op, major, minor, patch, pre.now)) }
{
    out.push_str(sign(op))?;
    write!(out, "{major}")?;
    push_number(out, minor)?;
    push_number(out, patch)?;
    if patch.is_some() && !pre.is_empty() {
        out.push('-')?;
        out.push_str(pre)?;
    }
    if matches!(op, Op::Wildcard) && patch.is_none() {
        out.push_str(".*")?;
    }
    Ok(())
}

/// Writes a comparator raised to a version.
fn push_upgraded(
    out: &mut String,
    comparator: &Comparator,
    version: &Version,
) -> Result<(), AllocError>
    ensures { OnOk result (string_bytes out.new ≡ string_bytes out.old
        ++ comparator_text (upgraded_comparator (parts_of version.now) (comparator_view comparator.now))) }
{
    let pre = match comparator.op {
        Op::Wildcard => comparator.pre.as_str(),
        _ => version.pre.as_str(),
    };
    let minor = comparator.minor.map(|_| version.minor);
    let patch = comparator.patch.map(|_| version.patch);
    push_comparator(out, comparator.op, version.major, minor, patch, pre)
}

/// The text of a requirement, raised to a version.
pub(crate) fn upgraded_text(
    alloc: Global,
    comparators: &[Comparator],
    version: &Version,
) -> Result<String, AllocError>
    ensures { IfOk result (λ s. string_bytes s
        ≡ requirement_text (map (upgraded_comparator (parts_of version.now))
        (map comparator_view comparators.now))) }
{
    let mut out = String::new(alloc);
    let [first, rest @ ..] = comparators else {
        out.push_str("*")?;
        return Ok(out);
    };
    push_upgraded(&mut out, first, version)?;
    'rest: for comparator in rest {
        out.push_str(", ")?;
        push_upgraded(&mut out, comparator, version)?;
    }
    Ok(out)
}

fn is_inequality(op: Op) -> bool
    ensures { result ≡ is_inequality op }
{
    matches!(op, Op::Greater | Op::GreaterEq | Op::Less | Op::LessEq)
}

/// The first comparator that cannot be raised.
pub(crate) fn first_inequality(comparators: &[Comparator]) -> Option<&Comparator>
    ensures { option_copied result ≡ find (λ c. is_inequality c.op) comparators.now }
{
    comparators.iter().find(|c| is_inequality(c.op))
}

fn starts_with_caret(text: &str) -> bool
    ensures { result ≡ starts_with_caret text.now }
{
    matches!(text.as_bytes(), [b'^', ..])
}

fn without_caret(text: &str) -> &str
    ensures { result.now ≡ without_caret text.now }
{
    match text.strip_prefix('^') {
        Some(rest) => rest,
        None => text,
    }
}

/// `new` without the `^` that leads it, unless one leads `old`.
pub(crate) fn match_caret<'a>(old: &str, new: &'a str) -> &'a str
    ensures { result.now ≡ match_caret old.now new.now }
{
    if starts_with_caret(old) {
        new
    } else {
        without_caret(new)
    }
}

/// The text of a comparator.
pub(crate) fn comparator_string(
    alloc: Global,
    comparator: &Comparator,
) -> Result<String, AllocError>
    ensures { IfOk result (λ s. string_bytes s ≡ comparator_text (comparator_view comparator.now)) }
{
    let mut out = String::new(alloc);
    push_comparator(
        &mut out,
        comparator.op,
        comparator.major,
        comparator.minor,
        comparator.patch,
        comparator.pre.as_str(),
    )?;
    Ok(out)
}
