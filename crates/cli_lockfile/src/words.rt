//! Arguments as text that can be given to a shell, and the subcommand `shell-words`, which prints it.
ghost use Rattle.std.specs.Prelude.{◌≡◌, ◌⊎◌, IfErr, IfOk};
ghost use Rattle.edit_base.specs.declared.errors.Error.TheVariants.{Memory, Output};

use edit_base::{CargoResult, Error};
use edit_shell::push_word;
use std::alloc::{AllocError, Global};
use std::io::Write;

/// Appends an argument, after a space if it is not the first one.
fn push_next(text: &mut Vec<u8>, argument: &str) -> Result<(), AllocError> {
    if !text.is_empty() {
        text.push(b' ')?;
    }
    push_word(text, argument)
}

/// The words of a command, separated by spaces, each in quotes where it needs them.
pub(crate) fn words_text(alloc: Global, words: &[String]) -> Result<Vec<u8>, AllocError> {
    let mut text = Vec::new(alloc);
    for word in words {
        push_next(&mut text, word.as_str())?;
    }
    Ok(text)
}

/// Runs `shell-words ARGUMENT..`: prints the arguments as words of a command on one line, and returns the
/// exit status.
pub fn shell_words<O: Write>(alloc: Global, arguments: &[&str], out: &mut O) -> CargoResult<u8>
    ensures status { IfOk result (λ s. s ≡ 0) }
    ensures error { IfErr result (λ e. (e ≡ Memory) ⊎ (e ≡ Output)) }
{
    let mut text = Vec::new(alloc);
    for argument in arguments {
        push_next(&mut text, argument)?;
    }
    text.push(b'\n')?;
    match out.write_all(&text) {
        Ok(()) => Ok(0),
        Err(_) => Err(Error::Output),
    }
}
