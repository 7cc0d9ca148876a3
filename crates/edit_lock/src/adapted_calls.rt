//! The calls of `cargo update` that are right against a lock file.
ghost use Rattle.std.specs.Prelude.{◌≡◌, ◌++◌, ◌∷◌, [], All, IfOk, OnOk, codes, if◌then◌else◌, map, string_bytes};
ghost use Rattle.std.specs.List.{flat_map};
ghost use Rattle.edit_lock.specs.ValidCalls.{IsValidCall};
ghost use Rattle.edit_lock.specs.AdaptedCalls.{changes, is_dropped_argument, name_in, names_package, package_arguments, adapted_argument, adapted_arguments, adapt_calls, replacement_specs};
ghost use Rattle.edit_lock.specs.Views.{arguments_view, calls_view, changes_view, new_packages_view, lock_view};

use crate::index::{Index, NewPackage};
use crate::lock::Lock;
use std::alloc::{AllocError, Global};

/// The arguments of a call.
type Call = Vec<String>;

/// The name in `NAME@VERSION`.
fn name_in(spec: &str) -> &str
    ensures { result.now ≡ name_in spec.now }
{
    match spec.split_once('@') {
        Some((name, _)) => name,
        None => spec,
    }
}

/// Adds an argument.
fn push_argument(alloc: Global, call: &mut Call, argument: &str) -> Result<(), AllocError>
    ensures { OnOk result (arguments_view call.new.items
        ≡ arguments_view call.old.items ++ argument.now ∷ []) }
{
    let argument = String::from_str(alloc, argument)?;
    call.push(argument)?;
    Ok(())
}

/// Adds the arguments that name a package.
fn push_package(alloc: Global, call: &mut Call, spec: &str) -> Result<(), AllocError>
    ensures { OnOk result (arguments_view call.new.items
        ≡ arguments_view call.old.items ++ package_arguments spec.now) }
{
    push_argument(alloc, call, "--package")?;
    push_argument(alloc, call, spec)
}

/// Adds the arguments that name packages.
fn push_packages(alloc: Global, call: &mut Call, packages: &[NewPackage]) -> Result<(), AllocError>
    ensures { OnOk result (arguments_view call.new.items
        ≡ arguments_view call.old.items ++ flat_map package_arguments (new_packages_view packages.now)) }
{
    'packages: for package in packages {
        push_package(alloc, call, package.spec.as_str())?;
    }
    Ok(())
}

/// Adds the packages of a name that only the present lock file has.
fn push_new_packages(
    alloc: Global,
    index: &Index,
    name: &str,
    call: &mut Call,
) -> Result<(), AllocError>
    ensures { OnOk result (arguments_view call.new.items ≡ arguments_view call.old.items
        ++ flat_map package_arguments ((changes_view index.now).gained name.now)) }
{
    match index.gained.get(name) {
        Some(packages) => push_packages(alloc, call, packages),
        None => Ok(()),
    }
}

/// Adds the packages that stand for one that a call names.
fn push_replacements(
    alloc: Global,
    index: &Index,
    spec: &str,
    call: &mut Call,
) -> Result<(), AllocError>
    ensures { OnOk result (arguments_view call.new.items ≡ arguments_view call.old.items
        ++ flat_map package_arguments (replacement_specs (changes_view index.now) spec.now)) }
{
    if index.has.contains(spec) {
        return push_package(alloc, call, spec);
    }
    if !index.had.contains(spec) {
        return Ok(());
    }
    push_new_packages(alloc, index, name_in(spec), call)
}

/// Whether an argument does not stand by itself.
fn is_dropped_argument(offline: bool, argument: &str) -> bool
    ensures { result ≡ is_dropped_argument offline argument.now }
{
    argument == "--package" || (argument == "--offline" && !offline)
}

/// Adds what becomes of an argument, behind the one before it.
fn add_argument(
    alloc: Global,
    index: &Index,
    offline: bool,
    previous: &str,
    argument: &str,
    call: &mut Call,
) -> Result<(), AllocError>
    ensures { OnOk result (arguments_view call.new.items ≡ arguments_view call.old.items
        ++ adapted_argument (changes_view index.now) offline previous.now argument.now) }
{
    if previous == "--package" {
        return push_replacements(alloc, index, argument, call);
    }
    if is_dropped_argument(offline, argument) {
        return Ok(());
    }
    push_argument(alloc, call, argument)
}

/// What becomes of a call.
fn adapt_call(
    alloc: Global,
    index: &Index,
    offline: bool,
    call: &[String],
) -> Result<Call, AllocError>
    ensures { IfOk result (λ v. arguments_view v.items
        ≡ adapted_arguments (changes_view index.now) offline [] (arguments_view call.now)) }
{
    let mut standing = Vec::new(alloc);
    let mut previous = "";
    'arguments: for argument in call {
        let argument = argument.as_str();
        add_argument(alloc, index, offline, previous, argument, &mut standing)?;
        previous = argument;
    }
    Ok(standing)
}

/// Whether a call names a package.
fn names_package(call: &[String]) -> bool
    ensures { result ≡ names_package (arguments_view call.now) }
{
    'arguments: for argument in call {
        if argument.as_str() == "--package" {
            return true;
        }
    }
    false
}

/// Adds a call, where it names a package.
fn push_call(calls: &mut Vec<Call>, call: Call) -> Result<(), AllocError>
    ensures { OnOk result (calls_view calls.new.items ≡ calls_view calls.old.items
        ++ (if names_package (arguments_view call.items) then arguments_view call.items ∷ [] else [])) }
{
    if names_package(&call) {
        calls.push(call)?;
    }
    Ok(())
}

/// The calls of `cargo update` that are right against the lock file `now`, in their order; `before` is the
/// lock file before the first of them was made.
///
/// A call is a list of arguments, of which each `--package` is followed by `NAME@VERSION`. It stays where
/// `now` has that package. Where it does not and `before` had it, a call before this one has changed that
/// version: then `--package` with each package of that name which `now` has and `before` had not stands in
/// its place. Else it is dropped. A call that names no package then is dropped, since it would update every
/// package. `--offline` stays only where `offline` says that nothing may be fetched. All else of a call
/// stays.
pub fn adapt_calls(
    alloc: Global,
    calls: &[Vec<String>],
    before: &Lock,
    now: &Lock,
    offline: bool,
) -> Result<Vec<Vec<String>>, AllocError>
    ensures calls { IfOk result (λ v. calls_view v.items
        ≡ adapt_calls (changes (lock_view before.now) (lock_view now.now)) offline
        (calls_view calls.now)) }
    // whatever the calls are, each that is left names packages, at least one, and only such that are locked
    ensures right { IfOk result (λ v. All (IsValidCall (lock_view now.now)) (calls_view v.items)) }
{
    let index = Index::new(alloc, before, now)?;
    let mut standing = Vec::new(alloc);
    'calls: for call in calls {
        let call = adapt_call(alloc, &index, offline, call)?;
        push_call(&mut standing, call)?;
    }
    Ok(standing)
}
