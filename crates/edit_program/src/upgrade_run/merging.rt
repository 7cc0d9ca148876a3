//! The arguments of `upgrade` with what the policy of the project says.
ghost use Rattle.std.specs.Prelude.{◌≡◌, IfOk, option_copied};
ghost use Rattle.edit_program.specs.Merging.{AreMerged, AreSameRows, IsMerged};

use crate::upgrade_run::upgrade_args::UpgradeArgs;
use edit_choice::RowChoice;
use edit_policy::{
    Choices, GivenChoices, Policy, copy_texts, merge_choices, merge_crate_levels, merge_excluded,
};
use edit_sources::PublishedBefore;
use edit_upgrade::Options;
use std::alloc::{AllocError, Global};

/// Options with what a policy says, where it is known which choices are given.
fn merge_options(
    alloc: Global,
    options: &Options,
    given: GivenChoices,
    policy: &Policy,
) -> Result<Options, AllocError>
    ensures { IfOk result (AreMerged options.now given policy.now) }
{
    let choices = Choices {
        compatible: options.compatible,
        incompatible: options.incompatible,
        pinned: options.pinned,
        never_lower: options.never_lower,
        level: options.level,
    };
    let choices = merge_choices(choices, given, policy);
    let crate_levels = merge_crate_levels(alloc, options.level, policy)?;
    Ok(Options {
        compatible: choices.compatible,
        incompatible: choices.incompatible,
        pinned: choices.pinned,
        never_lower: choices.never_lower,
        package: copy_texts(alloc, &options.package)?,
        exclude: merge_excluded(alloc, &options.exclude, policy)?,
        dry_run: options.dry_run,
        locked: options.locked,
        recursive: options.recursive,
        verbosity: options.verbosity,
        level: choices.level,
        crate_levels,
    })
}

/// A copy of a choice of rows, where there is one.
fn copy_rows<'a>(
    alloc: Global,
    rows: Option<&RowChoice<'a>>,
) -> Result<Option<RowChoice<'a>>, AllocError>
    ensures { IfOk result (AreSameRows (option_copied rows.entry)) }
{
    match rows {
        Some(rows) => Ok(Some(rows.try_clone(alloc)?)),
        None => Ok(None),
    }
}

/// Arguments with what a policy says, and with this bound on the time of publication.
pub(crate) fn merge_args<'a>(
    alloc: Global,
    args: &UpgradeArgs<'a>,
    policy: &Policy,
    bound: Option<PublishedBefore>,
) -> Result<UpgradeArgs<'a>, AllocError>
    ensures merged { IfOk result (IsMerged args.now policy.now) }
    ensures bound { IfOk result (λ m. m.published_before ≡ bound) }
{
    let options = merge_options(alloc, &args.options, args.given, policy)?;
    let rows = copy_rows(alloc, args.rows.as_ref())?;
    Ok(UpgradeArgs {
        manifest_path: args.manifest_path,
        metadata_json: args.metadata_json,
        index_file: args.index_file,
        index_dir: args.index_dir,
        config: args.config,
        default_config: args.default_config,
        rust: args.rust,
        options,
        given: args.given,
        no_policy: args.no_policy,
        presentation: args.presentation,
        update_calls: args.update_calls,
        lock_file: args.lock_file,
        offline: args.offline,
        to_lockfile: args.to_lockfile,
        published_before: bound,
        time: args.time,
        unify: args.unify,
        rows,
    })
}
