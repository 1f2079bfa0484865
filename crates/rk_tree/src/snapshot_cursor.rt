// A cursor over a snapshot, for look-ups of paths that ascend.
ghost use Rattle.std.specs.Prelude.{◌≡◌, option_copied};
ghost use Rattle.std.specs.FinMap.{get};
ghost use Rattle.std.specs.List.{cons_option};

use crate::{Node, Snapshot};
use rk_base::Path;
use std::cmp::Ordering;
use std::collections::btree_map::Iter;
use std::marker::Model;

// A row of a snapshot.
#[derive(Drop)]
struct Row<'a> {
    path: &'a Path,
    node: &'a Node,
}

impl<'a> Model for Row<'a> {
    ghost use Rattle.rk_base.specs.Text.{Text};
    ghost use Rattle.rk_tree.specs.Node.{Node as NodeValue};

    ghost Value = { Text × NodeValue };

    ghost view = { λ row. (row.path.now, row.node.now) };
}

/// A cursor over a snapshot, which looks up paths one after another. Where they ascend, each look-up goes on from the row of the last one, so
/// that it compares few paths; where they don't, it is as any other.
#[derive(Drop)]
pub struct SnapshotCursor<'a> {
    snapshot: &'a Snapshot,
    next: Option<Row<'a>>,
    rows: Iter<'a, Path, Node>,
}

impl<'a> Model for SnapshotCursor<'a> {
    ghost use Rattle.std.specs.FinMap as map;
    ghost use Rattle.std.specs.Coded.{coded_list, coded_ℕ};
    ghost use Rattle.rk_tree.specs.Entries.{Entries};

    ghost Value = { Entries };

    ghost use Rattle.rk_tree.specs.Node.{node_code};

    ghost coded = { map.code (coded_list coded_ℕ) node_code };

    ghost view = { λ it. it.snapshot.now };

    ghost use Rattle.std.specs.Prelude.{All};
    ghost use Rattle.std.specs.List.{cons_option};
    ghost use Rattle.rk_tree.specs.Rows.{IsRowOf};

    ghost invariant = { λ it. All (IsRowOf it.snapshot.now) (cons_option it.next it.rows) };
}

// The next row.
fn row_of<'a>(rows: &mut Iter<'a, Path, Node>) -> Option<Row<'a>>
    ensures { rows.old ≡ cons_option result rows.new }
{
    match rows.next() {
        Some((path, node)) => Some(Row { path, node }),
        None => None,
    }
}

impl<'a> SnapshotCursor<'a> {
    /// Look-ups in this snapshot.
    pub fn new(snapshot: &'a Snapshot) -> SnapshotCursor<'a>
        ensures { result ≡ snapshot.now }
    {
        let mut rows = snapshot.rows().iter();
        let next = row_of(&mut rows);
        SnapshotCursor {
            snapshot,
            next,
            rows,
        }
    }

    /// What stands at a path.
    pub fn get(&mut self, path: &Path) -> Option<&'a Node>
        ensures found { option_copied result ≡ get self.old path.now }
        ensures same { self.new ≡ self.old }
    {
        while let Some(row) = &self.next {
            match row.path.cmp(path) {
                Ordering::Less => self.next = row_of(&mut self.rows),
                Ordering::Equal => return Some(row.node),
                Ordering::Greater => break,
            }
        }
        self.snapshot.get(path)
    }
}
