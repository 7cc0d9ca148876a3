//! The file of calls.
ghost use Rattle.std.specs.Prelude.{◌≡◌, ◌++◌, ◌∷◌, [], ℕ, List, All, IfOk, OnOk, map};
ghost use Rattle.std.specs.Str.Lines.{lines};
ghost use Rattle.edit_lock.specs.CallsFile.{HasNoEmptyArgument, calls_behind, file_lines};
ghost use Rattle.edit_lock.specs.AdaptedCalls.{Call};
ghost use Rattle.edit_lock.specs.Views.{arguments_view, calls_view};

use std::alloc::{AllocError, Global};
use std::mem;

/// The lines of a text.
fn lines_of<'a>(alloc: Global, text: &'a str) -> Result<Vec<&'a str>, AllocError>
    ensures { IfOk result (λ v. map (λ line. line.now) v.items ≡ lines text.entry.now) }
{
    text.lines().collect(alloc)
}

/// Adds a line: an argument of the call that is being read, or, where it is empty, the end of that call.
fn add_line(
    alloc: Global,
    calls: &mut Vec<Vec<String>>,
    call: &mut Vec<String>,
    line: &str,
) -> Result<(), AllocError>
    ensures { OnOk result ((rest : List (List ℕ))
        → calls_view calls.new.items ++ calls_behind (arguments_view call.new.items) rest
        ≡ calls_view calls.old.items ++ calls_behind (arguments_view call.old.items) (line.now ∷ rest)) }
{
    if line.is_empty() {
        let ended = mem::replace(call, Vec::new(alloc));
        calls.push(ended)?;
        return Ok(());
    }
    let argument = String::from_str(alloc, line)?;
    call.push(argument)?;
    Ok(())
}

/// The calls of lines. Arguments behind the last empty line are left out.
fn calls_of(alloc: Global, lines: &[&str]) -> Result<Vec<Vec<String>>, AllocError>
    ensures { IfOk result (λ v. calls_view v.items ≡ calls_behind [] (map (λ line. line.now) lines.now)) }
{
    let mut calls = Vec::new(alloc);
    let mut call = Vec::new(alloc);
    'lines: for line in lines {
        add_line(alloc, &mut calls, &mut call, line)?;
    }
    Ok(calls)
}

/// Reads the file of calls that `upgrade --update-calls` writes: one argument a line, and an empty line
/// behind each call. Arguments behind the last empty line are left out.
pub fn read_calls(alloc: Global, text: &str) -> Result<Vec<Vec<String>>, AllocError>
    ensures read { IfOk result (λ v. calls_view v.items ≡ calls_behind [] (lines text.now)) }
    // what was written is read back
    ensures written { IfOk result (λ v. (calls : List Call) → All HasNoEmptyArgument calls
        → lines text.now ≡ file_lines calls → calls_view v.items ≡ calls) }
{
    let lines = lines_of(alloc, text)?;
    calls_of(alloc, &lines)
}
