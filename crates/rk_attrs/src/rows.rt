// Rows of attributes.
ghost use Rattle.std.specs.Prelude.{◌≡◌, ◌==◌, [], length, Some, None, true, not, if◌then◌else◌};
ghost use Rattle.std.specs.List.{list_all, list_any};
ghost use Rattle.std.specs.Ordering.{is_lt};
ghost use Rattle.rk_base.specs.Text.{text_cmp, root, join, hidden, is_within};
ghost use Rattle.rk_attrs.specs.Rows.{is_mode, is_link_text, suits, is_row, ascend_from, ascend, are_rows};

use rk_base::{Bytes, Path, has_nul};
use std::alloc::Global;
use std::marker::Model;

/// The mode of a file that has no row.
pub const FILE_MODE: u16 = 0o644;

/// The mode of a directory that has no row.
pub const DIR_MODE: u16 = 0o755;

/// What isn't as usual at a path: the mode of a file that isn't 0644, the mode of a directory that isn't 0755, or a
/// symbolic link with its text.
#[derive(Clone, Debug, Drop)]
pub enum AttrRow {
    FileMode(u16),
    DirMode(u16),
    Link(Bytes),
}

/// Rows of attributes, strictly ascending by the text of the path.
#[derive(Drop)]
pub struct Attrs {
    rows: Vec<(Path, AttrRow)>,
}

impl Model for Attrs {
    ghost use Rattle.std.specs.Prelude.{◌≡◌, List, ℕ, true};
    ghost use Rattle.rk_attrs.specs.declared.rows.AttrRow.{AttrRow};
    ghost use Rattle.rk_attrs.specs.Rows.{are_rows};

    ghost Value = { List (List ℕ × AttrRow) };

    ghost view = { λ a. a.rows.items };

    ghost invariant = { λ a. are_rows a.rows.items ≡ true };
}

fn is_mode(default: u16, mode: u16) -> bool
    ensures { result ≡ is_mode default mode }
{
    mode <= 0o777 && mode != default
}

fn is_link_text(text: &[u8]) -> bool
    ensures { result ≡ is_link_text text.now }
{
    !text.is_empty() && !has_nul(text)
}

// Whether this may be said of the path.
fn suits(path: &Path, it: &AttrRow) -> bool
    ensures { result ≡ suits path.now it.now }
{
    match it {
        AttrRow::FileMode(mode) => is_mode(FILE_MODE, *mode),
        AttrRow::DirMode(mode) => is_mode(DIR_MODE, *mode),
        AttrRow::Link(text) => is_link_text(text.as_slice()) && !path.is_root(),
    }
}

// Whether a path is the hidden directory's or stands below it.
#[tactic(auto, unfolding(rk_base::specs::Text::is_within, rk_base::specs::Text::join))]
fn is_hidden(path: &[u8]) -> bool
    ensures { result ≡ is_within (join root hidden) path.now }
{
    path == b"/.rkr".as_slice() || path.starts_with(b"/.rkr/")
}

fn is_row(path: &Path, it: &AttrRow) -> bool
    ensures { result ≡ is_row (path.now, it.now) }
{
    !is_hidden(path.text()) && suits(path, it)
}

fn all_rows(rows: &[(Path, AttrRow)]) -> bool
    ensures { result ≡ list_all is_row rows.now }
{
    rows.iter().all(|row| is_row(&row.0, &row.1))
}

fn is_below(a: &Path, b: &Path) -> bool
    ensures { result ≡ is_lt (text_cmp a.now b.now) }
{
    a < b
}

fn ascends_from(first: &Path, rows: &[(Path, AttrRow)]) -> bool
    ensures { result ≡ ascend_from first.now rows.now }
{
    let mut last = first;
    'rows: for (path, _) in rows {
        if !is_below(last, path) {
            return false;
        }
        last = path;
    }
    true
}

fn ascends(rows: &[(Path, AttrRow)]) -> bool
    ensures { result ≡ ascend rows.now }
{
    match rows {
        [] => true,
        [(path, _), rest @ ..] => ascends_from(path, rest),
    }
}

#[tactic(auto, unfolding(crate::specs::Rows::are_rows))]
fn are_rows(rows: &[(Path, AttrRow)]) -> bool
    ensures { result ≡ are_rows rows.now }
{
    all_rows(rows) && ascends(rows)
}

impl Attrs {
    /// No rows.
    #[tactic(auto, unfolding(crate::specs::Rows::are_rows))]
    pub fn new(alloc: Global) -> Attrs
        ensures { result ≡ [] }
    {
        Attrs {
            rows: Vec::new(alloc),
        }
    }

    /// The list of these; `None` exactly where they aren't rows, strictly ascending by path.
    pub fn from_vec(rows: Vec<(Path, AttrRow)>) -> Option<Attrs>
        ensures { result ≡ (if are_rows rows.items then Some rows.items else None) }
    {
        if are_rows(&rows) {
            Some(Attrs { rows })
        } else {
            None
        }
    }

    /// The rows, ascending.
    pub fn as_slice(&self) -> &[(Path, AttrRow)]
        ensures value { result.now ≡ self.now }
        ensures rows { are_rows self.now ≡ true }
    {
        self.rows.as_slice()
    }

    /// How many rows there are.
    pub fn len(&self) -> usize
        ensures { result ≡ length self.now }
    {
        self.rows.len()
    }
}
