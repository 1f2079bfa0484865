// The paths of components and of names that fit a pattern.
ghost use Rattle.std.specs.Prelude.{◌≡◌, ◌++◌, ◌∷◌, [], ◌==◌, ◌&&◌, IfOk, OnOk, true, if◌then◌else◌};
ghost use Rattle.sh_pattern.specs.Decided.{is_matched};
ghost use Rattle.sh_pattern.specs.Pathnames.{joined, begins_period, is_hidden, fits_name, matching, without_last, put_all};

use crate::matching::matches;
use crate::paths::PathList;
use rk_base::{Bytes, Name, NoMemory};
use std::alloc::Global;

fn join(alloc: Global, last: bool, prefix: &[u8], name: &[u8]) -> Result<Bytes, NoMemory>
    ensures { IfOk result (λ path. path ≡ joined last prefix.now name.now) }
{
    let mut path = Vec::from_slice(alloc, prefix)?;
    path.extend_from_slice(name)?;
    if !last {
        path.push(b'/')?;
    }
    let path = Bytes::new(alloc, path)?;
    Ok(path)
}

fn begins_period(pattern: &[u8]) -> bool
    ensures { result ≡ begins_period pattern.now }
{
    match pattern {
        [] => false,
        [b] => *b == b'.',
        [b, c, ..] => if *b == b'\\' { *c == b'.' } else { *b == b'.' },
    }
}

fn is_hidden(name: &[u8]) -> bool
    ensures { result ≡ is_hidden name.now }
{
    match name {
        [] => false,
        [b, ..] => *b == b'.',
    }
}

fn shows(pattern: &[u8], name: &[u8]) -> bool
    ensures { result ≡ (if is_hidden name.now then begins_period pattern.now else true) }
{
    if is_hidden(name) {
        begins_period(pattern)
    } else {
        true
    }
}

fn fits_name(pattern: &[u8], name: &[u8]) -> bool
    ensures { result ≡ fits_name pattern.now name.now }
{
    shows(pattern, name) && matches(pattern, name)
}

/// A prefix as a directory: without the slash that joins it.
pub fn without_last(prefix: &[u8]) -> &[u8]
    ensures { result.now ≡ without_last prefix.now }
{
    match prefix {
        [] => prefix,
        [_] => prefix,
        [_, _, ..] => prefix.split_at(prefix.len() - 1).0,
    }
}

/// A literal component, added to each prefix; the last component of a field ends without a slash.
pub fn put_all(
    alloc: Global,
    last: bool,
    value: &[u8],
    prefixes: PathList,
) -> Result<PathList, NoMemory>
    ensures { IfOk result (λ paths. paths ≡ put_all last value.now prefixes) }
{
    let mut prefixes = prefixes;
    let mut paths = PathList::new(alloc);
    'prefixes: while let Some(prefix) = prefixes.pop() {
        let path = join(alloc, last, prefix.as_slice(), value)?;
        paths.push(path)?;
    }
    Ok(paths)
}

fn add_name(
    alloc: Global,
    last: bool,
    pattern: &[u8],
    prefix: &[u8],
    name: &Name,
    done: &mut PathList,
) -> Result<(), NoMemory>
    ensures { OnOk result (done.new ≡ done.old ++ matching last pattern.now prefix.now (name.now ∷ [])) }
{
    if fits_name(pattern, name.as_slice()) {
        let path = join(alloc, last, prefix, name.as_slice())?;
        done.push(path)?;
    }
    Ok(())
}

/// Puts down the paths of the names that fit a pattern, each behind a prefix.
pub fn add_names(
    alloc: Global,
    last: bool,
    pattern: &[u8],
    prefix: &[u8],
    names: &[Name],
    done: &mut PathList,
) -> Result<(), NoMemory>
    ensures { OnOk result (done.new ≡ done.old ++ matching last pattern.now prefix.now names.now) }
{
    'names: for name in names {
        add_name(alloc, last, pattern, prefix, name, done)?;
    }
    Ok(())
}
