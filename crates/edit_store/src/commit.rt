//! How a write that is ready is made, and how it is taken back. No memory is asked for: the paths are made
//! before the first file is moved.
//!
//! A manifest is moved aside before the new file gets its name, and what was moved is compared then: so a
//! file that another program put there at any moment is found, and comes back.
use crate::overwrite::{is_unmovable, overwrite_beside, overwrite_unmovable};
use crate::reading::{Fingerprint, fingerprint_of_file};
use crate::reason::{CHANGED, Reason, StoreResult, moving};
use crate::staged::{Staged, WriteMethod};
use crate::temporary::{Temporary, move_to_free_name};
use std::alloc::Global;
use std::fs;
use std::fs::{File, Files};
use std::io::{ErrorKind, Write};

/// Makes a write that is ready.
pub(crate) fn commit<R: Files<File = File>>(
    rt: &R,
    alloc: Global,
    staged: &mut Staged,
    bytes: &[u8],
) -> StoreResult<()> {
    if let WriteMethod::Append(file) = &mut staged.way {
        return moving(file.write_all(bytes));
    }
    let staged = &*staged;
    let target = staged.paths.target.as_str();
    match &staged.way {
        WriteMethod::Replace(new) => {
            let done = if staged.old.is_some() {
                replace(rt, alloc, staged, new, bytes)
            } else {
                rename_over(rt, alloc, staged, new, bytes)
            };
            if done.is_err() {
                new.remove(rt);
            }
            done
        }
        WriteMethod::Create(new) => {
            let done = moving(fs::rename(rt, new.path.as_str(), target));
            if done.is_err() {
                new.remove(rt);
            }
            done
        }
        WriteMethod::InPlace(copy) => {
            overwrite_beside(rt, alloc, staged, copy.path.as_str(), bytes)
        }
        WriteMethod::Append(_) => Ok(()),
    }
}

/// Moves a new file over a file that was not read.
fn rename_over<R: Files<File = File>>(
    rt: &R,
    alloc: Global,
    staged: &Staged,
    new: &Temporary,
    bytes: &[u8],
) -> StoreResult<()> {
    match fs::rename(rt, new.path.as_str(), staged.paths.target.as_str()) {
        Ok(()) => Ok(()),
        Err(error) if is_unmovable(error.kind()) => {
            overwrite_unmovable(rt, alloc, staged, bytes)?;
            new.remove(rt);
            Ok(())
        }
        Err(error) => Err(Reason::Moving(error)),
    }
}

/// Moves a manifest aside, and gives its name to a new file. Where what was moved is not the file that was
/// compared, it comes back.
fn replace<R: Files<File = File>>(
    rt: &R,
    alloc: Global,
    staged: &Staged,
    new: &Temporary,
    bytes: &[u8],
) -> StoreResult<()> {
    let (target, aside) = (staged.paths.target.as_str(), staged.paths.aside.as_str());
    match fs::rename(rt, target, aside) {
        Ok(()) => {}
        Err(error) if is_unmovable(error.kind()) => {
            overwrite_unmovable(rt, alloc, staged, bytes)?;
            new.remove(rt);
            return Ok(());
        }
        Err(error) if error.kind() == ErrorKind::NotFound => return Err(Reason::Said(CHANGED)),
        Err(error) => return Err(Reason::Moving(error)),
    }
    match move_to_free_name(rt, new.path.as_str(), target) {
        Ok(()) if is_unchanged(rt, staged) => Ok(()),
        Ok(()) => {
            take_back(rt, staged, new);
            Err(Reason::Said(CHANGED))
        }
        Err(error) if error.kind() == ErrorKind::AlreadyExists => {
            leave_aside(rt, staged);
            Err(Reason::Said(CHANGED))
        }
        Err(error) => {
            put_back(rt, staged);
            Err(Reason::Moving(error))
        }
    }
}

/// Gives the file that was moved aside its name again. A file that another program made there stays.
fn put_back<R: Files<File = File>>(rt: &R, staged: &Staged) {
    let (target, aside) = (staged.paths.target.as_str(), staged.paths.aside.as_str());
    match move_to_free_name(rt, aside, target) {
        Ok(()) => {}
        Err(error) if error.kind() == ErrorKind::AlreadyExists => leave_aside(rt, staged),
        Err(_) => {
            let _ = fs::rename(rt, aside, target);
        }
    }
}

/// Takes a write back: the file that was moved aside gets its name again. A file that another program made
/// there since stays, and so does one that it wrote to.
pub(crate) fn take_back<R: Files<File = File>>(rt: &R, staged: &Staged, new: &Temporary) {
    let (target, path) = (staged.paths.target.as_str(), new.path.as_str());
    if fs::symlink_metadata(rt, staged.paths.aside.as_str()).is_err() {
        return;
    }
    new.remove(rt);
    let is_moved = fs::rename(rt, target, path).is_ok();
    let is_own = !is_moved || (new.is_at_path(rt) && has_text(rt, staged, path));
    if !is_own && move_to_free_name(rt, path, target).is_ok() {
        leave_aside(rt, staged);
        return;
    }
    put_back(rt, staged);
    if fs::symlink_metadata(rt, target).is_err() {
        let _ = move_to_free_name(rt, path, target);
    } else {
        new.remove(rt);
    }
}

/// Whether a file holds the new text of a write.
fn has_text<R: Files<File = File>>(rt: &R, staged: &Staged, path: &str) -> bool {
    match File::open(rt, path) {
        Ok(mut file) => match fingerprint_of_file(&mut file) {
            Ok(text) => text == staged.text,
            Err(_) => false,
        },
        Err(_) => false,
    }
}

/// Whether what was moved aside is the file that was compared, or another one with the same text, as on a
/// file system where files have no lasting numbers.
fn is_unchanged<R: Files<File = File>>(rt: &R, staged: &Staged) -> bool {
    let aside = staged.paths.aside.as_str();
    staged.is_old_file(rt, aside) || (is_file(rt, aside) && aside_text(rt, staged) == staged.old)
}

/// Whether a regular file is at a path; a link is none.
fn is_file<R: Files>(rt: &R, path: &str) -> bool {
    match fs::symlink_metadata(rt, path) {
        Ok(metadata) => metadata.is_file(),
        Err(_) => false,
    }
}

/// The fingerprint of the text of the file that was moved aside; none where it cannot be read.
fn aside_text<R: Files<File = File>>(rt: &R, staged: &Staged) -> Option<Fingerprint> {
    match File::open(rt, staged.paths.aside.as_str()) {
        Ok(mut file) => fingerprint_of_file(&mut file).ok(),
        Err(_) => None,
    }
}

/// Removes a file that was moved aside and that nobody needs. One with an edit stays, under the name of a
/// copy.
fn leave_aside<R: Files<File = File>>(rt: &R, staged: &Staged) {
    let aside = staged.paths.aside.as_str();
    if is_unchanged(rt, staged) && !has_edit(rt, staged) {
        let _ = fs::remove_file(rt, aside);
    } else {
        let _ = fs::rename(rt, aside, staged.paths.copy.as_str());
    }
}

/// Whether another program wrote to the file that was moved aside.
pub(crate) fn has_edit<R: Files<File = File>>(rt: &R, staged: &Staged) -> bool {
    let Some(old) = staged.old else {
        return false;
    };
    match aside_text(rt, staged) {
        Some(text) => text != old && text != staged.text,
        None => false,
    }
}

/// Removes the file that was moved aside for a write.
pub(crate) fn remove_aside<R: Files<File = File>>(rt: &R, staged: &Staged) {
    if matches!(staged.way, WriteMethod::Replace(_)) && is_unchanged(rt, staged) {
        let _ = fs::remove_file(rt, staged.paths.aside.as_str());
    }
}
