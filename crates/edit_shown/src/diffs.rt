//! Unified diffs of manifests.
ghost use Rattle.std.specs.Prelude.{◌≡◌, IfErr, IfOk};
ghost use Rattle.edit_base.specs.Errors.{IsMemory};
ghost use Rattle.edit_shown.specs.Diffs.{diff_of, is_of, next_diff, other_outputs};

use crate::diff::diff_text;
use crate::paths::shown_path;
use edit_base::CargoResult;
use edit_metadata::Input;
use edit_report::Output;
use std::alloc::Global;

/// Whether an output is that of this input.
fn is_of(input: &Input, output: &Output) -> bool
    ensures { result ≡ is_of input.now output.now }
{
    input.path.as_str() == output.path.as_str()
}

/// The diff of a manifest.
fn diff_of(alloc: Global, root: &str, input: &Input, output: &Output) -> CargoResult<Vec<u8>>
    ensures text { IfOk result (λ v. v.items ≡ diff_of root.now input.now output.now) }
    ensures error { IfErr result IsMemory }
{
    let path = shown_path(alloc, root, input.path.as_str())?;
    diff_text(alloc, path, &input.bytes, &output.bytes)
}

/// The unified diff of an input, where the first output is its own; else empty. The path is relative to the
/// folder `root` (another path loses its first `/`), so that `git apply` and `patch -p1` accept the diff
/// there.
pub fn next_diff(
    alloc: Global,
    root: &str,
    input: &Input,
    outputs: &[Output],
) -> CargoResult<Vec<u8>>
    ensures text { IfOk result (λ v. v.items ≡ next_diff root.now input.now outputs.now) }
    ensures error { IfErr result IsMemory }
{
    let [output, ..] = outputs else {
        return Ok(Vec::new(alloc));
    };
    if !is_of(input, output) {
        return Ok(Vec::new(alloc));
    }
    diff_of(alloc, root, input, output)
}

/// The outputs of the inputs after this one: all but the first, where that is its own. Outputs must be in the
/// order of their inputs.
pub fn other_outputs<'a>(input: &Input, outputs: &'a [Output]) -> &'a [Output]
    ensures { result.now ≡ other_outputs input.now outputs.now }
{
    let [output, others @ ..] = outputs else {
        return outputs;
    };
    if is_of(input, output) {
        others
    } else {
        outputs
    }
}
