//! Commands that cargo provides itself.
ghost use Rattle.std.specs.Prelude.{◌≡◌, map};
ghost use Rattle.edit_program.specs.Merged.{builtin_named, first_builtin};

use edit_base::errors::MergedCommand;

/// The command of cargo that an argument names.
fn builtin_named(arg: &str) -> Option<MergedCommand>
    ensures { result ≡ builtin_named arg.now }
{
    match arg {
        "add" => Some(MergedCommand::Add),
        "rm" => Some(MergedCommand::Rm),
        _ => None,
    }
}

/// `add` or `rm`, if the first argument is one of them: cargo provides these itself.
pub(crate) fn first_builtin(args: &[&str]) -> Option<MergedCommand>
    ensures { result ≡ first_builtin (map (λ w. w.now) args.now) }
{
    match args.first() {
        Some(arg) => builtin_named(arg),
        None => None,
    }
}
