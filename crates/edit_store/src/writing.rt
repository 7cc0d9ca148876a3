//! Makes the writes of a run that are ready, and takes them back where another program changed a file
//! meanwhile.
use crate::commit::{commit, has_edit, remove_aside, take_back};
use crate::reading::{fingerprint_of_file, identity_of};
use crate::reason::{CHANGED, Reason, StoreResult};
use crate::staged::{Staged, WriteMethod};
use crate::work::{ReadFile, Work};
use edit_base::paths::folder;
use std::alloc::Global;
use std::collections::BTreeMap;
use std::fs::{File, Files};

impl Work {
    /// Writes a file that is ready. Behind the last write that is compared the folders are flushed to the
    /// disk, and the files that were moved aside are examined again.
    pub(crate) fn write<R: Files<File = File>>(
        &mut self,
        rt: &R,
        alloc: Global,
        path: &str,
        bytes: &[u8],
    ) -> StoreResult<()> {
        let Some(mut staged) = self.staged.remove(path) else {
            return Ok(());
        };
        self.verified = self.verified.saturating_sub(1);
        if let Err(reason) = commit(rt, alloc, &mut staged, bytes) {
            if matches!(reason, Reason::Said(_)) {
                self.take_all_back(rt);
            }
            return Err(reason);
        }
        if let Some(read) = self.texts.get_mut(path)
            && let Some(identity) = staged.new_identity()
        {
            *read = ReadFile {
                text: staged.text,
                identity,
            };
        }
        self.made.push(staged)?;
        if self.verified == 0 {
            return self.finish_writes(rt, alloc);
        }
        Ok(())
    }

    /// Takes the writes back that were made since the last flush.
    fn take_all_back<R: Files<File = File>>(&mut self, rt: &R) {
        self.is_taken_back = true;
        for staged in self.made.iter() {
            match &staged.way {
                WriteMethod::Replace(new) => take_back(rt, staged, new),
                WriteMethod::Create(_) | WriteMethod::InPlace(_) | WriteMethod::Append(_) => {
                    self.is_taken_back = false;
                }
            }
        }
        self.made.clear();
    }

    /// Flushes the folders of the files that were replaced, and examines what was moved aside. A folder that
    /// cannot be flushed is passed over: each file is whole, the old one or the new one.
    fn finish_writes<R: Files<File = File>>(&mut self, rt: &R, alloc: Global) -> StoreResult<()> {
        let mut changed = None;
        for staged in self.made.iter() {
            let target = staged.paths.target.as_str();
            if matches!(staged.way, WriteMethod::Replace(_) | WriteMethod::Create(_))
                && let Ok(file) = File::open(rt, folder(target))
            {
                let _ = file.sync_all();
            }
        }
        for staged in self.made.iter() {
            if changed.is_none() && has_edit(rt, staged) {
                changed = Some(changed_while_written(alloc, staged.paths.name.as_str()));
            }
        }
        if let Some(reason) = changed {
            self.take_all_back(rt);
            return Err(reason);
        }
        for staged in self.made.iter() {
            remove_aside(rt, staged);
        }
        self.made.clear();
        Ok(())
    }

    /// Gives up the writes that are ready and not made.
    pub(crate) fn unstage<R: Files<File = File>>(&mut self, rt: &R, alloc: Global) {
        for staged in self.staged.values() {
            staged.give_up(rt);
        }
        self.staged = BTreeMap::new(alloc);
        self.paths = BTreeMap::new(alloc);
        self.open = 0;
        self.verified = 0;
        let _ = self.finish_writes(rt, alloc);
    }
}

/// Whether a file has the text that was read of it. Where it is to be overwritten, it is also the very file
/// that was read.
pub(crate) fn is_as_read<R: Files<File = File>>(
    rt: &R,
    staged: &mut Staged,
    read: ReadFile,
) -> StoreResult<bool> {
    let mut file = File::open(rt, staged.paths.name.as_str())?;
    let identity = identity_of(&file.metadata()?);
    if fingerprint_of_file(&mut file)? != read.text {
        return Ok(false);
    }
    let is_replaced = matches!(staged.way, WriteMethod::Replace(_));
    if !is_replaced && (identity != read.identity || staged.identity != Some(identity)) {
        return Ok(false);
    }
    staged.identity = Some(identity);
    staged.old = Some(read.text);
    Ok(true)
}

/// The error of a file that another program wrote to while it was replaced: then no manifest is changed.
fn changed_while_written(alloc: Global, path: &str) -> Reason {
    let made = format!(in alloc;
        "{path} was changed while cargo-edit wrote it; no manifest is changed"
    );
    match made {
        Ok(text) => Reason::Found(text),
        Err(_) => Reason::Said(CHANGED),
    }
}
