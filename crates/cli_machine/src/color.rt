//! Whether reports are written in colors: as cargo decides by `--color` and `CARGO_TERM_COLOR`, and else by
//! `NO_COLOR` (no-color.org), `CLICOLOR_FORCE` and `CLICOLOR` (bixense.com/clicolors), and the terminal.

use crate::machine::variable;
use edit_base::{CargoResult, Error};

/// When reports are written in colors.
#[derive(Clone, Copy)]
enum ColorChoice {
    Auto,
    Always,
    Never,
}

/// The choice that a text names.
fn choice_of(text: &str) -> Option<ColorChoice> {
    match text {
        "auto" => Some(ColorChoice::Auto),
        "always" => Some(ColorChoice::Always),
        "never" => Some(ColorChoice::Never),
        _ => None,
    }
}

/// The text of a variable of the environment that is not empty; `?` where it is not UTF-8.
fn setting(rt: &HostRuntime, name: &str) -> CargoResult<Option<String>> {
    match variable(rt, name) {
        Err(Error::NotUtf8) => Ok(Some(String::from_str(rt.alloc(), "?")?)),
        other => other,
    }
}

/// The choice of `--color`, if it is given, else the choice of `CARGO_TERM_COLOR`.
fn choice(rt: &HostRuntime, given: Option<&str>) -> CargoResult<ColorChoice> {
    if let Some(text) = given {
        return Ok(choice_of(text).unwrap_or(ColorChoice::Auto));
    }
    match setting(rt, "CARGO_TERM_COLOR")? {
        Some(text) => Ok(choice_of(text.as_str()).unwrap_or(ColorChoice::Auto)),
        None => Ok(ColorChoice::Auto),
    }
}

/// Whether a terminal shows colors: `TERM` says which one it is.
fn has_colors(rt: &HostRuntime) -> CargoResult<bool> {
    let term = setting(rt, "TERM")?;
    Ok(term.is_some_and(|name| name.as_str() != "dumb"))
}

/// Whether a stream is colored where neither the arguments nor cargo's settings say so.
fn is_colored_by_itself(rt: &HostRuntime, is_terminal: bool) -> CargoResult<bool> {
    if setting(rt, "NO_COLOR")?.is_some() {
        return Ok(false);
    }
    let forced = setting(rt, "CLICOLOR_FORCE")?;
    if forced.is_some_and(|value| value.as_str() != "0") {
        return Ok(true);
    }
    let switch = setting(rt, "CLICOLOR")?;
    let is_off = switch.is_some_and(|value| value.as_str() == "0");
    Ok(is_terminal && !is_off && has_colors(rt)?)
}

/// Whether a stream is colored, by the value of `--color` where it is given.
pub(crate) fn is_colored(
    rt: &HostRuntime,
    given: Option<&str>,
    is_terminal: bool,
) -> CargoResult<bool> {
    match choice(rt, given)? {
        ColorChoice::Auto => is_colored_by_itself(rt, is_terminal),
        ColorChoice::Always => Ok(true),
        ColorChoice::Never => Ok(false),
    }
}
