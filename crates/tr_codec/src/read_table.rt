// Tables that were read.
ghost use Rattle.std.specs.Prelude.{◌≡◌, IfOk};
ghost use Rattle.tr_record.specs.Contents.{AreContents};
ghost use Rattle.tr_codec.specs.NodesRead.{AreTold};
ghost use Rattle.tr_codec.specs.Rows.{AreHeads};

use rk_base::{Bytes, NoMemory};
use rk_content::Contents;
use std::alloc::Global;
use std::marker::Model;
use std::rc::Rc;
use tr_record::{RecordedContents, StepPool, Table};

/// A table that was read, and the contents that its answers are, by the numbers of their blobs. Contracts see the records.
#[derive(Debug, Drop)]
pub struct ReadTable {
    table: Table,
    contents: RecordedContents,
}

impl Model for ReadTable {
    ghost use Rattle.std.specs.Prelude.{List};
    ghost use Rattle.tr_record.specs.Contents.{AreContents};
    ghost use Rattle.tr_record.specs.declared.records.Record.{Record};

    ghost Value = { List Record };

    ghost view = { λ r. r.table };

    ghost invariant = { λ r. AreContents r.contents r.table };
}

impl ReadTable {
    pub(crate) fn new(table: Table, contents: RecordedContents) -> ReadTable
        requires { AreContents contents table }
        ensures { result ≡ table }
    {
        ReadTable { table, contents }
    }

    /// The table, and which contents its answers are.
    pub fn into_parts(self) -> (Table, RecordedContents)
        ensures table { result.0 ≡ self }
        ensures contents { AreContents result.1 result.0 }
    {
        let ReadTable { table, contents } = self;
        (table, contents)
    }
}

/// All texts of blobs. They are shared, not copied.
pub fn texts_of(alloc: Global, blobs: &Contents) -> Result<Vec<Bytes>, NoMemory>
    ensures { IfOk result (λ texts. texts.items ≡ blobs.now) }
{
    let all = blobs.as_slice();
    let mut texts = Vec::new(alloc);
    'texts: for text in all {
        texts.push(text.copy()?)?;
    }
    Ok(texts)
}

/// A table whose records' steps have these numbers, and which contents its answers are.
pub(crate) fn with_contents(
    alloc: Global,
    table: Table,
    heads: Vec<usize>,
    pool: Rc<StepPool>,
    blobs: &Contents,
) -> Result<ReadTable, NoMemory>
    requires heads { AreHeads pool.value.nodes heads.items table }
    requires told { AreTold blobs.now pool.value }
    ensures { IfOk result (λ it. it ≡ table) }
{
    let texts = texts_of(alloc, blobs)?;
    let contents = RecordedContents::new(pool, texts, heads);
    Ok(ReadTable::new(table, contents))
}
