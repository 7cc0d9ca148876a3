//! What a run answers: a value that is made before anything is printed or written.
ghost use Rattle.std.specs.Prelude.{◌≡◌, ◌++◌, OnOk};
ghost use Rattle.edit_program.specs.Effects.{exit_status, stderr_texts, stdout_texts, written_outputs};

use edit_metadata::Input;
use edit_report::Output;
use edit_steps::RunError;
use std::alloc::AllocError;

/// A text, for the stream that it is printed on.
#[derive(Drop)]
pub(crate) enum Message {
    Stdout(Vec<u8>),
    Stderr(Vec<u8>),
}

/// The manifests whose diffs are printed. Each diff is made when it is printed.
#[derive(Drop)]
pub(crate) struct Diffs {
    /// The folder that paths are relative to.
    pub(crate) root: String,
    pub(crate) inputs: Vec<Input>,
}

/// What a run prints and writes, in this order.
#[derive(Drop)]
pub(crate) struct Effects {
    /// What is printed before a file is written.
    pub(crate) messages: Vec<Message>,
    /// The manifests whose diffs follow on standard output; `None` if no diffs are requested.
    pub(crate) diffs: Option<Diffs>,
    /// The manifests that change, in the order of the inputs.
    pub(crate) outputs: Vec<Output>,
    /// Whether they are written: not with a dry run.
    pub(crate) writes: bool,
    /// The status lines of the calls of `cargo update` that follow, for standard error.
    pub(crate) calls: String,
    /// The file with the calls, if one is requested.
    pub(crate) calls_file: Vec<Output>,
    /// Why the run fails after all this.
    pub(crate) failure: Option<RunError>,
    /// The notes at the end, for standard error. They are not printed if the run fails.
    pub(crate) notes: Vec<u8>,
    /// Whether the exit status is 1 if a manifest changes.
    pub(crate) check: bool,
}

/// What a run answers.
#[derive(Drop)]
pub(crate) enum Reply {
    /// The message of a usage error, for standard error. The exit status is 2.
    Usage(String),
    /// A text for standard output, such as the help.
    Text(String),
    /// What an upgrade prints and writes, or a setting of versions.
    Effects(Effects),
}

/// Appends a text for standard output, unless it is empty.
pub(crate) fn push_stdout(messages: &mut Vec<Message>, text: Vec<u8>) -> Result<(), AllocError>
    ensures stdout { OnOk result (stdout_texts messages.new.items
        ≡ stdout_texts messages.old.items ++ text.items) }
    ensures stderr { OnOk result (stderr_texts messages.new.items ≡ stderr_texts messages.old.items) }
{
    if text.is_empty() {
        return Ok(());
    }
    messages.push(Message::Stdout(text))?;
    Ok(())
}

/// Appends a text for standard error, unless it is empty.
pub(crate) fn push_stderr(messages: &mut Vec<Message>, text: Vec<u8>) -> Result<(), AllocError>
    ensures stdout { OnOk result (stdout_texts messages.new.items ≡ stdout_texts messages.old.items) }
    ensures stderr { OnOk result (stderr_texts messages.new.items
        ≡ stderr_texts messages.old.items ++ text.items) }
{
    if text.is_empty() {
        return Ok(());
    }
    messages.push(Message::Stderr(text))?;
    Ok(())
}

impl Effects {
    /// The manifests to write.
    pub(crate) fn written_outputs(&self) -> &[Output]
        ensures { result.now ≡ written_outputs self.now }
    {
        if self.writes {
            self.outputs.as_slice()
        } else {
            &[]
        }
    }

    /// The exit status once all is done: 1 if changes are only checked, and a manifest changes.
    pub(crate) fn exit_status(&self) -> u8
        ensures { result ≡ exit_status self.now }
    {
        if self.check && !self.outputs.is_empty() {
            1
        } else {
            0
        }
    }
}
