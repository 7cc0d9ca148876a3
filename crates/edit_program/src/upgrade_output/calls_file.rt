//! The file of the calls of `cargo update`.
ghost use Rattle.std.specs.Prelude.{◌≡◌, ◌++◌, IfErr, IfOk, OnOk, map, option_map};
ghost use Rattle.edit_base.specs.Errors.{IsMemory};
ghost use Rattle.edit_report.specs.Applied.{HaveDistinctPaths};
ghost use Rattle.edit_upgrade.specs.Views.{calls_view, args_view};
ghost use Rattle.edit_program.specs.CallsFile.{call_lines, calls_files, calls_text, due_path, file_of, arg_line};

use edit_base::CargoResult;
use edit_report::Output;
use edit_upgrade::Options;
use std::alloc::{AllocError, Global};

/// Appends an argument as a line.
fn push_arg_line(text: &mut Vec<u8>, arg: &str) -> Result<(), AllocError>
    ensures { OnOk result (text.new.items ≡ text.old.items ++ arg_line arg.now) }
{
    text.extend_from_slice(arg.as_bytes())?;
    text.push(b'\n')?;
    Ok(())
}

/// Appends a call: one argument a line, then an empty line.
fn push_call(text: &mut Vec<u8>, call: &[String]) -> Result<(), AllocError>
    ensures { OnOk result (text.new.items ≡ text.old.items ++ call_lines (args_view call.now)) }
{
    for arg in call {
        push_arg_line(text, arg.as_str())?;
    }
    text.push(b'\n')?;
    Ok(())
}

/// The text of calls, one after another.
fn calls_text(alloc: Global, calls: &[Vec<String>]) -> Result<Vec<u8>, AllocError>
    ensures { IfOk result (λ v. v.items ≡ calls_text (calls_view calls.now)) }
{
    let mut text = Vec::new(alloc);
    for call in calls {
        push_call(&mut text, call.as_slice())?;
    }
    Ok(text)
}

/// The path of the file of the calls, unless `--dry-run` or `--locked` forbids to write it.
fn due_path<'a>(options: &Options, path: Option<&'a str>) -> Option<&'a str>
    ensures { option_map (λ p. p.now) result
        ≡ due_path options.now (option_map (λ p. p.now) path.entry) }
{
    if options.dry_run || options.locked {
        None
    } else {
        path
    }
}

/// The file of the calls as an output.
fn output_of(alloc: Global, path: &str, calls: &[Vec<String>]) -> Result<Output, AllocError>
    ensures { IfOk result (λ o. file_of o ≡ (path.now, calls_text (calls_view calls.now))) }
{
    let path = String::from_str(alloc, path)?;
    let bytes = calls_text(alloc, calls)?;
    Ok(Output { path, bytes })
}

/// The file of the calls as an output, where one is given and files may be written.
pub(crate) fn calls_outputs(
    alloc: Global,
    options: &Options,
    path: Option<&str>,
    calls: &[Vec<String>],
) -> CargoResult<Vec<Output>>
    ensures file { IfOk result (λ v. map file_of v.items
        ≡ calls_files (due_path options.now (option_map (λ p. p.now) path.entry)) (calls_view calls.now)) }
    ensures apart { IfOk result (λ v. HaveDistinctPaths v.items) }
    ensures error { IfErr result IsMemory }
{
    let Some(path) = due_path(options, path) else {
        return Ok(Vec::new(alloc));
    };
    let output = output_of(alloc, path, calls)?;
    Ok(vec![in alloc; output]?)
}
