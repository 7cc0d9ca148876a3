//! Paths of the command line.
ghost use Rattle.std.specs.Prelude.{IfErr, IfOk, string_bytes};
ghost use Rattle.edit_base.specs.Errors.{IsMemory};
ghost use Rattle.edit_steps.specs.Absolute.{IsAbsoluteOf};

use edit_base::CargoResult;
use edit_base::paths::{join, normal};
use std::alloc::Global;

/// The absolute, normalized form of `path`, which is relative to `current` where it is not absolute.
pub fn absolute_path(alloc: Global, current: &str, path: &str) -> CargoResult<String>
    ensures text { IfOk result (λ s. IsAbsoluteOf current.now path.now (string_bytes s)) }
    ensures error { IfErr result IsMemory }
{
    let joined = join(alloc, current, path)?;
    normal(alloc, joined.as_str())
}
