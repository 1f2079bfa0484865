// What a real file holds.
use rk_base::Bytes;
use rk_folder::{Got, LONGEST_FILE};
use std::alloc::Global;
use std::fs::{File, Files, Metadata};
use std::io::{ErrorKind, Read};
use std::{fs, io};

/// A read asks for at least and at most so many bytes. What it asks for is made zero before.
const SHORTEST_PIECE: usize = 1 << 8;

const LONGEST_PIECE: usize = 1 << 20;

/// All bytes of a reader, of which there are not too many: about so many. Where a length is told, a read that gives fewer than
/// it was asked for, and brings that length, is the last.
pub(crate) fn all_bytes(
    alloc: Global,
    reader: &mut impl Read,
    about: usize,
    length: Option<usize>,
) -> io::Result<Vec<u8>> {
    let mut bytes = Vec::with_capacity(alloc, about)?;
    let asked = about.saturating_add(1);
    let mut piece = vec![in alloc; 0u8; asked.max(SHORTEST_PIECE).min(LONGEST_PIECE)]?;
    for _ in 0..u64::MAX {
        let n = reader.read(&mut piece)?;
        if n == 0 {
            return Ok(bytes);
        }
        bytes.extend_from_slice(&piece[..n])?;
        if n < piece.len() && length == Some(bytes.len()) {
            return Ok(bytes);
        }
        if bytes.len() as u64 > LONGEST_FILE {
            break;
        }
    }
    Err(io::Error::from(ErrorKind::FileTooLarge))
}

// The bytes of an open file that has so many. One that is too long is told by its length, before it is read.
fn content_of(alloc: Global, file: &mut impl Read, length: u64) -> io::Result<Got> {
    if length > LONGEST_FILE {
        return Err(io::Error::from(ErrorKind::FileTooLarge));
    }
    let length = length as usize;
    let bytes = all_bytes(alloc, file, length, Some(length))?;
    match Bytes::new(alloc, bytes) {
        Ok(bytes) => Ok(Got::Content(bytes)),
        Err(_) => Err(io::Error::from(ErrorKind::OutOfMemory)),
    }
}

/// Nothing stands at a path, be it that what is before it is a file.
pub(crate) fn is_absent(e: &io::Error) -> bool {
    matches!(e.kind(), ErrorKind::NotFound | ErrorKind::NotADirectory)
}

/// What stands at a place, where anything does. A link is told, and not followed.
pub(crate) fn standing(rt: &impl Files, place: &str) -> io::Result<Option<Metadata>> {
    match fs::symlink_metadata(rt, place) {
        Ok(it) => Ok(Some(it)),
        Err(e) if is_absent(&e) => Ok(None),
        Err(e) => Err(e),
    }
}

/// What is read at a place. It is looked at right before it is opened, whatever was listed there, and only a file is opened: of a
/// FIFO the open waits until another program writes to it, and of a link it is that of another place.
pub(crate) fn content(rt: &impl Files, alloc: Global, place: &str) -> io::Result<Got> {
    match standing(rt, place)? {
        None => Ok(Got::Absent),
        Some(it) if it.is_file() => {
            let mut file = File::open(rt, place)?;
            content_of(alloc, &mut file, it.len())
        }
        Some(_) => Err(io::Error::from(ErrorKind::InvalidInput)),
    }
}
