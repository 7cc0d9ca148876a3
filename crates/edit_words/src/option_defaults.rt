//! Words with the values that are left out of them.
ghost use Rattle.std.specs.Prelude.{◌≡◌, ◌++◌, ◌∷◌, ◌||◌, IfOk, codes, false, OnOk, map, option_map};
ghost use Rattle.std.specs.List.{list_all, list_any};
ghost use Rattle.std.specs.Option.{option_map_or};
ghost use Rattle.std.specs.Str.{bytes_eq};
ghost use Rattle.edit_words.specs.Filled.{inserted_values, insert_defaults, is_flag_letter, is_group, is_one, missing_value, statuses, values_behind};

use std::alloc::{AllocError, Global};

/// Whether a byte is the letter of a flag of `upgrade`.
fn is_flag_letter(byte: u8) -> bool
    ensures { result ≡ is_flag_letter byte }
{
    byte == b'n' || byte == b'q' || byte == b'v'
}

/// Whether bytes are letters of flags alone.
fn are_flag_letters(bytes: &[u8]) -> bool
    ensures { result ≡ list_all is_flag_letter bytes.now }
{
    bytes.iter().all(|byte| is_flag_letter(*byte))
}

/// Whether an argument has flags of one letter and then `-i` behind one `-`, as `-ni`.
fn is_group(arg: &str) -> bool
    ensures { result ≡ is_group arg.now }
{
    let bytes = arg.as_bytes();
    let n = bytes.len();
    3 <= n && bytes[0] == b'-' && bytes[n - 1] == b'i' && are_flag_letters(&bytes[1..n - 1])
}

/// The values that allow or ignore a kind of upgrade.
fn statuses() -> &'static [&'static str]
    ensures { map (λ v. v.now) result.now ≡ statuses }
{
    &["allow", "true", "ignore", "false"]
}

/// The values of an option that may stand without one; the first of them is the one that it then has.
fn values_behind(arg: &str) -> &'static [&'static str]
    ensures { map (λ v. v.now) result.now ≡ values_behind arg.now }
{
    match arg {
        "--compatible" | "-i" | "--incompatible" | "--pinned" => statuses(),
        "--recursive" => &["true", "false"],
        _ if is_group(arg) => statuses(),
        _ => &[],
    }
}

/// Whether a text is one of these.
fn is_one(texts: &[&str], text: &str) -> bool
    ensures { result ≡ list_any (λ other. bytes_eq text.now other.now) texts.now }
{
    texts.iter().any(|other| text == *other)
}

/// Whether the next argument is one of these values.
fn has_value(values: &[&str], next: Option<&&str>) -> bool
    ensures { result ≡ option_map_or (is_one (map (λ v. v.now) values.now))
        (option_map (λ w. w.now.now) next.entry) false }
{
    match next {
        Some(next) => is_one(values, next),
        None => false,
    }
}

/// The value of an option where the next argument is none of its values.
fn missing_value(arg: &str, next: Option<&&str>) -> Option<&'static str>
    ensures { option_map (λ v. v.now) result
        ≡ missing_value (values_behind arg.now) (option_map (λ w. w.now.now) next.entry) }
{
    let values = values_behind(arg);
    if has_value(values, next) {
        None
    } else {
        values.first().copied()
    }
}

/// Whether options have ended at an argument `--` before this one, or end here.
fn has_ended(ended: bool, arg: &str) -> bool
    ensures { result ≡ (ended || bytes_eq arg.now (codes "--")) }
{
    ended || arg == "--"
}

/// Appends an argument, and its default value, where options have not ended.
fn push_with_default<'a>(
    args: &mut Vec<&'a str>,
    arg: &'a str,
    next: Option<&&'a str>,
    ended: bool,
) -> Result<(), AllocError>
    ensures { OnOk result (map (λ w. w.now) args.new.items ≡ map (λ w. w.now) args.old.items
        ++ arg.entry.now ∷ inserted_values ended arg.entry.now (option_map (λ w. w.now.now) next.entry)) }
{
    args.push(arg)?;
    if ended {
        return Ok(());
    }
    if let Some(value) = missing_value(arg, next) {
        args.push(value)?;
    }
    Ok(())
}

/// The arguments, with a value behind each option that stands without one, before an argument `--`: such an
/// option then says yes. Only the list is new, the arguments are borrowed; fails for want of memory alone.
pub fn insert_defaults<'a>(alloc: Global, args: &[&'a str]) -> Result<Vec<&'a str>, AllocError>
    ensures { IfOk result (λ v. map (λ w. w.now) v.items ≡ insert_defaults (map (λ w. w.now) args.now)) }
{
    let mut all = Vec::new(alloc);
    let mut ended = false;
    for at in 0..args.len() {
        ended = has_ended(ended, args[at]);
        push_with_default(&mut all, args[at], args.get(at + 1), ended)?;
    }
    Ok(all)
}
