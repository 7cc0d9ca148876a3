//! Reads files of the machine.
use crate::reason::{StoreResult, found_reason};
use std::alloc::Global;
use std::fs::{File, Files, Metadata};
use std::hash::{DefaultHasher, Hasher};
use std::io::{ErrorKind, IsTerminal, Read, Seek, SeekFrom};
use std::os::unix::fs::{FileTypeExt, MetadataExt};
use std::{fs, io};

/// The greatest number of bytes that are read of one file.
const LIMIT: u64 = 1_000_000_000;

/// The length and the hash of a text, to compare two texts without storing them.
#[derive(Clone, Copy, Debug, PartialEq, Eq)]
pub(crate) struct Fingerprint {
    length: usize,
    hash: u64,
}

impl Fingerprint {
    /// Returns the fingerprint of a text.
    pub(crate) fn of(bytes: &[u8]) -> Fingerprint {
        let mut hasher = DefaultHasher::new();
        hasher.write(bytes);
        Fingerprint {
            length: bytes.len(),
            hash: hasher.finish(),
        }
    }

    /// Returns the length of the text.
    pub(crate) fn length(&self) -> u64 {
        self.length as u64
    }
}

/// The device and the number of a file: no other file has them while it stands.
pub(crate) type Identity = (u64, u64);

/// Returns the device and the number of a file.
pub(crate) fn identity_of(metadata: &Metadata) -> Identity {
    (metadata.dev(), metadata.ino())
}

/// Returns the fingerprint of the text of an open file. No memory is asked for.
pub(crate) fn fingerprint_of_file(file: &mut File) -> io::Result<Fingerprint> {
    file.seek(SeekFrom::Start(0))?;
    let mut hasher = DefaultHasher::new();
    let mut length = 0usize;
    let mut part = [0u8; 4096];
    for _ in 0..LIMIT {
        match file.read(&mut part) {
            Ok(0) => {
                let hash = hasher.finish();
                return Ok(Fingerprint { length, hash });
            }
            Ok(count) => {
                hasher.write(&part[..count]);
                length = length.saturating_add(count);
            }
            Err(error) if error.kind() == ErrorKind::Interrupted => {}
            Err(error) => return Err(error),
        }
    }
    Err(io::Error::from(ErrorKind::FileTooLarge))
}

/// Returns the bytes of a regular file, and which file it is. A character device is read only if it is empty,
/// as `/dev/null` is; any other kind of file is an error.
pub(crate) fn read_regular<R: Files<File = File>>(
    rt: &R,
    alloc: Global,
    path: &str,
) -> StoreResult<(Vec<u8>, Identity)> {
    let metadata = fs::metadata(rt, path)?;
    if metadata.is_file() || metadata.is_dir() {
        let file = File::open(rt, path)?;
        let opened = file.metadata()?;
        let bytes = read_within(alloc, file, &opened)?;
        return Ok((bytes, identity_of(&opened)));
    }
    if metadata.file_type().is_char_device() {
        let bytes = read_device(alloc, File::open(rt, path)?)?;
        return Ok((bytes, identity_of(&metadata)));
    }
    Err(found_reason(alloc, "it is not a regular file"))
}

/// Returns the bytes of a regular file, or of a pipe or a terminal up to its end.
pub(crate) fn read_stream<R: Files<File = File>>(
    rt: &R,
    alloc: Global,
    path: &str,
) -> StoreResult<Vec<u8>> {
    let file = File::open(rt, path)?;
    let metadata = file.metadata()?;
    let kind = metadata.file_type();
    if (kind.is_char_device() || kind.is_block_device()) && !file.is_terminal() {
        return read_device(alloc, file);
    }
    read_within(alloc, file, &metadata)
}

/// Returns the bytes of an open file; more than `LIMIT` bytes are an error.
fn read_within(alloc: Global, file: File, metadata: &Metadata) -> StoreResult<Vec<u8>> {
    if metadata.is_file() && metadata.len() > LIMIT {
        return Err(found_reason(alloc, "it is larger than 1 GB"));
    }
    let mut bytes = Vec::new(alloc);
    if metadata.is_file()
        && let Ok(length) = usize::try_from(metadata.len())
    {
        // (one byte more, so that the end is found without more room)
        bytes.reserve(length.saturating_add(1))?;
    }
    file.take(LIMIT + 1).read_to_end(&mut bytes)?;
    if bytes.len() as u64 > LIMIT {
        return Err(found_reason(alloc, "it is larger than 1 GB"));
    }
    Ok(bytes)
}

/// Returns no bytes for a device that yields none; any byte is an error.
fn read_device(alloc: Global, mut file: File) -> StoreResult<Vec<u8>> {
    let mut first = [0u8; 1];
    if file.read(&mut first)? > 0 {
        return Err(found_reason(alloc, "it is a device"));
    }
    Ok(Vec::new(alloc))
}
