// What is known of a folder while a list is finished.
ghost use Rattle.std.specs.Prelude.{◌≡◌, OnOk, option_copied, true};
ghost use Rattle.rk_base.specs.Text.{join};
ghost use Rattle.rk_install.specs.Calls.{left_by};
ghost use Rattle.rk_install.specs.Known.{is_listed_dir, name_listed, nothing_seen, place_seen, seen_at, unlisted, with_call, with_item, with_items, with_listing, with_seen};
ghost use Rattle.rk_install.specs.Looks.{place_of};

use crate::looking::{Place, place_by};
use rk_base::{Name, NoMemory, Path};
use rk_folder::Item;
use rk_seal::Op;
use std::alloc::Global;
use std::collections::BTreeMap;

/// What was seen at a path.
#[derive(Clone, Copy)]
pub(crate) struct Seen {
    place: Place,
    /// It is a directory, and all that stands in it was seen.
    is_listed: bool,
}

/// What is known of a folder: what listings told of it, and what calls have left since. So each directory is listed once,
/// however many calls there are in it. A look-up takes no memory, and as many comparisons as a search in a B-tree.
#[derive(Drop)]
pub(crate) struct Known {
    seen: BTreeMap<Path, Seen>,
}

// The name of an item.
fn name_listed(item: &Item) -> Option<&Name>
    ensures { option_copied result ≡ name_listed item.now }
{
    match item {
        Item::File(name) => Some(name),
        Item::Dir(name) => Some(name),
        Item::Special(name) => Some(name),
        Item::Odd => None,
    }
}

// What stands at the path of a call that was made.
fn place_left(op: &Op) -> Place
    ensures { result ≡ place_of true (left_by op.now) }
{
    match op {
        Op::RemoveFile(_) => Place::Free,
        Op::RemoveDir(_) => Place::Free,
        Op::MakeDir(_) => Place::Dir,
        Op::Write(_, _) => Place::File,
    }
}

impl Known {
    /// Nothing.
    pub(crate) fn new(alloc: Global) -> Known
        ensures { seen_at result ≡ nothing_seen }
    {
        Known {
            seen: BTreeMap::new(alloc),
        }
    }

    fn at(&self, path: &Path) -> Option<Seen>
        ensures { result ≡ seen_at self.now path.now }
    {
        match self.seen.get(path) {
            None => None,
            Some(it) => Some(*it),
        }
    }

    /// What stands at a path, in a directory that is listed.
    pub(crate) fn place(&self, path: &Path) -> Place
        ensures { result ≡ place_seen (seen_at self.now path.now) }
    {
        match self.at(path) {
            None => Place::Free,
            Some(it) => it.place,
        }
    }

    /// Whether a directory is listed.
    pub(crate) fn is_listed(&self, dir: &Path) -> bool
        ensures { result ≡ is_listed_dir (seen_at self.now dir.now) }
    {
        match self.at(dir) {
            None => false,
            Some(it) => it.is_listed,
        }
    }

    fn put(&mut self, path: Path, it: Seen) -> Result<(), NoMemory>
        ensures { OnOk result (seen_at self.new ≡ with_seen path it (seen_at self.old)) }
    {
        self.seen.insert(path, it)?;
        Ok(())
    }

    fn put_name(
        &mut self,
        alloc: Global,
        dir: &Path,
        name: &Name,
        place: Place,
    ) -> Result<(), NoMemory>
        ensures { OnOk result (seen_at self.new ≡ with_seen (join dir.now name.now) (unlisted place) (seen_at self.old)) }
    {
        let path = dir.join(alloc, name)?;
        self.put(
            path,
            Seen {
                place,
                is_listed: false,
            },
        )?;
        Ok(())
    }

    fn put_item(&mut self, alloc: Global, dir: &Path, item: &Item) -> Result<(), NoMemory>
        ensures { OnOk result (seen_at self.new ≡ with_item dir.now (seen_at self.old) item.now) }
    {
        let place = place_by(Some(item));
        match name_listed(item) {
            None => Ok(()),
            Some(name) => self.put_name(alloc, dir, name, place),
        }
    }

    fn put_items(&mut self, alloc: Global, dir: &Path, items: &[Item]) -> Result<(), NoMemory>
        ensures { OnOk result (seen_at self.new ≡ with_items dir.now items.now (seen_at self.old)) }
    {
        for item in items {
            self.put_item(alloc, dir, item)?;
        }
        Ok(())
    }

    /// A directory is listed, and these are its items.
    pub(crate) fn put_listing(
        &mut self,
        alloc: Global,
        dir: &Path,
        items: &[Item],
    ) -> Result<(), NoMemory>
        ensures { OnOk result (seen_at self.new ≡ with_listing dir.now items.now (seen_at self.old)) }
    {
        self.put_items(alloc, dir, items)?;
        let path = dir.copy()?;
        self.put(
            path,
            Seen {
                place: Place::Dir,
                is_listed: true,
            },
        )?;
        Ok(())
    }

    /// A call is made.
    pub(crate) fn put_call(&mut self, op: &Op) -> Result<(), NoMemory>
        ensures { OnOk result (seen_at self.new ≡ with_call op.now (seen_at self.old)) }
    {
        let path = op.path().copy()?;
        let place = place_left(op);
        self.put(
            path,
            Seen {
                place,
                is_listed: false,
            },
        )?;
        Ok(())
    }
}
