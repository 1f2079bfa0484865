// What `find` tests of a path.
ghost use Rattle.std.specs.Prelude.{◌≡◌, ◌++◌, ◌∷◌, [], OnOk};
ghost use Rattle.std.specs.List.{list_all};
ghost use Rattle.ut_find.specs.Tests.{same_kind, meets, meets_all};

use rk_base::{Bytes, FileType, NoMemory};
use sh_pattern::matches;
use std::alloc::Global;
use std::marker::Model;
use ut_files::basename;

/// What is tested of a path.
#[derive(Debug, Drop)]
pub enum Test {
    /// Whether a pattern matches its last component.
    Named(Bytes),
    /// Whether this stands there.
    OfKind(FileType),
}

fn same_kind(a: FileType, b: FileType) -> bool
    ensures { result ≡ same_kind a b }
{
    match a {
        FileType::File => matches!(b, FileType::File),
        FileType::Dir => matches!(b, FileType::Dir),
        FileType::Link => matches!(b, FileType::Link),
    }
}

impl Test {
    // Whether a path holds, where this stands there.
    fn meets(&self, kind: FileType, path: &[u8]) -> bool
        ensures { result ≡ meets kind path.now self.now }
    {
        match self {
            Test::Named(pattern) => matches(pattern.as_slice(), basename(path)),
            Test::OfKind(wanted) => same_kind(kind, *wanted),
        }
    }
}

/// Tests, in the order in which they were given.
#[derive(Debug, Drop)]
pub struct TestList {
    tests: Vec<Test>,
}

impl Model for TestList {
    ghost use Rattle.std.specs.Prelude.{List};
    ghost use Rattle.ut_find.specs.declared.test.Test.{Test};

    ghost Value = { List Test };

    ghost view = { λ l. l.tests.items };
}

impl TestList {
    /// No tests.
    pub fn new(alloc: Global) -> TestList
        ensures { result ≡ [] }
    {
        TestList {
            tests: Vec::new(alloc),
        }
    }

    /// One test more, at the end.
    pub fn push(&mut self, test: Test) -> Result<(), NoMemory>
        ensures { OnOk result (self.new ≡ self.old ++ test ∷ []) }
    {
        self.tests.push(test)?;
        Ok(())
    }

    /// Whether a path meets each of them, where this stands there.
    pub fn meets(&self, kind: FileType, path: &[u8]) -> bool
        ensures { result ≡ meets_all kind path.now self.now }
    {
        'tests: for test in self.tests.as_slice() {
            if !test.meets(kind, path) {
                return false;
            }
        }
        true
    }
}
