// What `find` visits.
use crate::test::TestList;
use rk_base::{Bytes, Path};
use std::marker::Model;

/// The working directory, and what is tested of each path.
#[derive(Drop)]
pub struct Find {
    pub wd: Path,
    pub tests: TestList,
}

impl Model for Find {
    ghost use Rattle.ut_find.specs.Finds.{FindValue};

    ghost Value = { FindValue };

    ghost view = { λ f. record { wd = f.wd; tests = f.tests } };
}

/// A visit of a path.
#[derive(Debug, Drop)]
pub enum Visit {
    /// What stands there is looked at.
    Look(Bytes),
    /// The directory there is listed.
    Enter(Bytes),
}
