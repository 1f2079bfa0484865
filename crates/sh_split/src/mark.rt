// What an expanded word is made of.
ghost use Rattle.std.specs.Prelude.{◌≡◌, ◌==◌, ◌||◌};
ghost use Rattle.std.specs.List.{list_any};
ghost use Rattle.sh_split.specs.Marks.{contains, is_blank, kind_of, kind};

use rk_base::NoMemory;
use std::alloc::Global;
use std::marker::Model;

/// A byte with where it comes from, or a place in a word that has no byte.
#[derive(Clone, Copy, Debug, Drop)]
pub enum Mark {
    /// A byte of the word itself, not quoted.
    Literal(u8),
    Quoted(u8),
    /// A byte that an expansion gave, not quoted. It alone is looked up in IFS.
    Given(u8),
    /// Something quoted stands here, though it may be empty.
    Quote,
    /// One parameter of `$@` ends here and the next begins.
    Break,
}

/// What a mark is for the cutting.
#[derive(Clone, Copy, Debug, Drop)]
pub enum MarkKind {
    /// White space of IFS.
    White,
    /// Another byte of IFS.
    Hard,
    /// It belongs to a field.
    Matter,
    Break,
}

/// The marks of a field.
#[derive(Debug, Drop, Clone)]
pub struct Field {
    marks: Vec<Mark>,
}

impl Model for Field {
    ghost use Rattle.std.specs.Prelude.{List};
    ghost use Rattle.sh_split.specs.declared.mark.Mark.{Mark};

    ghost Value = { List Mark };

    ghost view = { λ f. f.marks.items };
}

impl Field {
    /// The field of these marks.
    pub fn new(marks: Vec<Mark>) -> Field
        ensures { result ≡ marks.items }
    {
        Field { marks }
    }

    /// Its marks, given up.
    pub fn into_vec(self) -> Vec<Mark>
        ensures { result.items ≡ self }
    {
        let Field { marks } = self;
        marks
    }

    /// Its marks, in their order.
    pub fn as_slice(&self) -> &[Mark]
        ensures { result.now ≡ self.now }
    {
        self.marks.as_slice()
    }
}

fn is_blank(b: u8) -> bool
    ensures { result ≡ is_blank b }
{
    b == b' ' || b == b'\t' || b == b'\n'
}

fn contains(ifs: &[u8], b: u8) -> bool
    ensures { result ≡ contains ifs.now b }
{
    ifs.iter().any(|c| *c == b)
}

fn kind_of(ifs: &[u8], b: u8) -> MarkKind
    ensures { result ≡ kind_of ifs.now b }
{
    if !contains(ifs, b) {
        return MarkKind::Matter;
    }
    if is_blank(b) {
        MarkKind::White
    } else {
        MarkKind::Hard
    }
}

/// What a mark is, where IFS has these bytes.
pub fn kind_of_mark(ifs: &[u8], mark: Mark) -> MarkKind
    ensures { result ≡ kind ifs.now mark }
{
    match mark {
        Mark::Literal(_) => MarkKind::Matter,
        Mark::Quoted(_) => MarkKind::Matter,
        Mark::Given(b) => kind_of(ifs, b),
        Mark::Quote => MarkKind::Matter,
        Mark::Break => MarkKind::Break,
    }
}
