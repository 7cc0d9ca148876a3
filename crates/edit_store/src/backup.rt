//! Copies of the text of a file that is overwritten.
use crate::reason::{Reason, StoreResult, found_reason};
use crate::temporary::{Temporary, make_temporary, temporary_folder};
use edit_base::paths::folder;
use std::alloc::Global;
use std::env::Env;
use std::fs::{File, Files};
use std::io::{ErrorKind, Read, Seek, SeekFrom, Write};
use std::{fs, io};

/// A copy of a file's text on the disk: in its folder, or in the folder for temporary files where none may be
/// made there.
pub(crate) fn make_backup<R: Files<File = File> + Alloc<A = Global> + Env>(
    rt: &R,
    alloc: Global,
    target: &str,
    process: u32,
) -> StoreResult<Temporary> {
    let bytes = fs::read(rt, target)?;
    let made = match make_temporary(rt, alloc, folder(target), process, 0o600, "old")? {
        Some(made) => Some(made),
        None => {
            let elsewhere = temporary_folder(rt, alloc)?;
            make_temporary(rt, alloc, elsewhere.as_str(), process, 0o600, "old")?
        }
    };
    let Some((mut file, copy)) = made else {
        return Err(found_reason(alloc, "no copy of it can be made before it is overwritten"));
    };
    match fill(&mut file, &bytes) {
        Ok(()) => Ok(copy),
        Err(error) => {
            copy.remove(rt);
            Err(Reason::from(error))
        }
    }
}

/// Writes bytes to the disk.
fn fill(file: &mut File, bytes: &[u8]) -> io::Result<()> {
    file.write_all(bytes)?;
    file.sync_all()
}

/// Gives a file the text of another one, and writes it to the disk. No memory is asked for.
pub(crate) fn copy_text(from: &mut File, to: &mut File) -> io::Result<()> {
    from.seek(SeekFrom::Start(0))?;
    to.seek(SeekFrom::Start(0))?;
    let mut length = 0u64;
    let mut part = [0u8; 4096];
    for _ in 0..u64::MAX {
        match from.read(&mut part) {
            Ok(0) => {
                to.set_len(length)?;
                return to.sync_all();
            }
            Ok(count) => {
                to.write_all(&part[..count])?;
                length = length.saturating_add(count as u64);
            }
            Err(error) if error.kind() == ErrorKind::Interrupted => {}
            Err(error) => return Err(error),
        }
    }
    Err(io::Error::from(ErrorKind::FileTooLarge))
}
