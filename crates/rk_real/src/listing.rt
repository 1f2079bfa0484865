// What real directories list. A request lists the root, and `.rkr`, to look for a sealed list, and then the root again to
// import it, so that no name of it has to be looked at twice for that.
use crate::reading::all_bytes;
use rk_base::{Name, NoMemory, Path, PathFault};
use rk_folder::Item;
use std::alloc::Global;
use std::fs::{Files, Metadata};
use std::io::ErrorKind;
use std::{fs, io, str};

/// A directory has at most so many names.
const MOST_NAMES: usize = 1 << 20;

/// A listing is about so long.
const LISTING: usize = 1 << 12;

// What a directory lists, ascending by names.
#[derive(Drop)]
struct Listing {
    items: Vec<Item>,
    has_odd: bool,
}

fn no_memory() -> io::Error {
    io::Error::from(ErrorKind::OutOfMemory)
}

// The name of a real file, where it is one.
fn name_of(alloc: Global, bytes: &[u8]) -> io::Result<Option<Name>> {
    match Name::new(alloc, bytes) {
        Ok(name) => Ok(Some(name)),
        Err(PathFault::Invalid) => Ok(None),
        Err(PathFault::NoMemory) => Err(no_memory()),
    }
}

fn name_again(name: &Name) -> io::Result<Name> {
    match name.copy() {
        Ok(name) => Ok(name),
        Err(NoMemory) => Err(no_memory()),
    }
}

// What stands at a name in the directory at this place.
fn metadata_in(rt: &impl Files, alloc: Global, place: &str, name: &str) -> io::Result<Metadata> {
    let mut below = String::from_str(alloc, place)?;
    below.push_str("/")?;
    below.push_str(name)?;
    fs::symlink_metadata(rt, below.as_str())
}

fn item_of(name: Name, it: &Metadata) -> Item {
    if it.is_file() {
        Item::File(name)
    } else if it.is_dir() {
        Item::Dir(name)
    } else {
        Item::Special(name)
    }
}

// The names in a listing, each ended by a NUL, ascending and without `.` and `..`.
fn sorted_names(alloc: Global, listing: &[u8]) -> io::Result<Vec<&[u8]>> {
    let mut names = Vec::new(alloc);
    for name in listing.split(|b| *b == 0) {
        if !name.is_empty() && name != b".".as_slice() && name != b"..".as_slice() {
            names.push(name)?;
        }
        if names.len() > MOST_NAMES {
            return Err(io::Error::from(ErrorKind::FileTooLarge));
        }
    }
    names.sort()?;
    Ok(names)
}

impl Listing {
    // A name of the directory at this place.
    fn put(&mut self, rt: &impl Files, alloc: Global, place: &str, bytes: &[u8]) -> io::Result<()> {
        let (Some(name), Ok(text)) = (name_of(alloc, bytes)?, str::from_utf8(bytes)) else {
            self.has_odd = true;
            return Ok(());
        };
        let it = metadata_in(rt, alloc, place, text)?;
        self.items.push(item_of(name, &it))?;
        Ok(())
    }

    // What stands in the directory at a place. The place has no last slash, so that a link that was put there is not followed.
    fn at(rt: &impl Files, alloc: Global, place: &str) -> io::Result<Vec<Item>> {
        let mut dir = rt.open_dir(place)?;
        let names = all_bytes(alloc, &mut dir, LISTING, None)?;
        let mut listing = Listing {
            items: Vec::new(alloc),
            has_odd: false,
        };
        for name in &sorted_names(alloc, &names)? {
            listing.put(rt, alloc, place, name)?;
        }
        if listing.has_odd {
            listing.items.push(Item::Odd)?;
        }
        Ok(listing.items)
    }
}

fn copy_of(item: &Item) -> io::Result<Item> {
    match item {
        Item::File(name) => Ok(Item::File(name_again(name)?)),
        Item::Dir(name) => Ok(Item::Dir(name_again(name)?)),
        Item::Special(name) => Ok(Item::Special(name_again(name)?)),
        Item::Odd => Ok(Item::Odd),
    }
}

fn copies(alloc: Global, items: &[Item]) -> io::Result<Vec<Item>> {
    let mut copies = Vec::new(alloc);
    for item in items {
        copies.push(copy_of(item)?)?;
    }
    Ok(copies)
}

/// What the root was listed as.
#[derive(Drop)]
pub(crate) struct Listings {
    // It is told the same once more where nothing but a listing of `.rkr` was asked since.
    root: Option<Vec<Item>>,
}

impl Listings {
    pub(crate) fn new() -> Listings {
        Listings { root: None }
    }

    /// What the directory at this path and place is listed as.
    pub(crate) fn items(
        &mut self,
        rt: &impl Files,
        alloc: Global,
        dir: &Path,
        place: &str,
    ) -> io::Result<Vec<Item>> {
        if !dir.is_root() {
            return Listing::at(rt, alloc, place);
        }
        if let Some(items) = self.root.take() {
            return Ok(items);
        }
        let items = Listing::at(rt, alloc, place)?;
        self.root = Some(copies(alloc, &items)?);
        Ok(items)
    }

    /// Something else was asked: the root is listed anew.
    pub(crate) fn forget_root(&mut self) {
        self.root = None;
    }
}
