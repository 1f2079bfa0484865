// `tr`.
ghost use Rattle.std.specs.Prelude.{◌≡◌, ◌++◌, ◌∷◌, ◌&&◌, map, Some, None, IfOk, OnOk};
ghost use Rattle.std.specs.List.{filter};
ghost use Rattle.rk_base.specs.Canonical.{is_empty};
ghost use Rattle.rk_base.specs.Text.{Text};
ghost use Rattle.ut_select.specs.Sets.{is_member};
ghost use Rattle.ut_select.specs.Trs.{image, repeats, squeeze, kept, tr_text};
ghost use Rattle.ut_select.specs.Tables.{AreTables};

use crate::sets::is_empty;
use crate::table::Table;
use rk_base::{Bytes, NoMemory};
use std::alloc::Global;
use std::marker::Model;
use ut_filter::{Input, Made, Work, joined, refusal_lines, status_of};

/// The bytes that `tr` deletes, those that become others, in order, and those that are squeezed afterwards.
#[derive(Debug, Drop)]
pub struct Tr {
    deleted: Vec<u8>,
    from: Vec<u8>,
    to: Vec<u8>,
    squeezed: Vec<u8>,
}

impl Model for Tr {
    ghost use Rattle.ut_select.specs.Trs.{TrValue};

    ghost Value = { TrValue };

    ghost view = { λ t. record { deleted = t.deleted.items; from = t.from.items; to = t.to.items; squeezed = t.squeezed.items } };
}

/// Which bytes are deleted, what bytes become, and which are squeezed.
#[derive(Drop)]
struct Tables {
    deleted: Table,
    images: Table,
    squeezed: Table,
}

impl Model for Tables {
    ghost use Rattle.ut_select.specs.Tables.{TablesValue};

    ghost Value = { TablesValue };

    ghost view = { λ t. record { deleted = t.deleted; images = t.images; squeezed = t.squeezed } };
}

impl Tr {
    pub(crate) fn new(deleted: Vec<u8>, from: Vec<u8>, to: Vec<u8>, squeezed: Vec<u8>) -> Tr
        ensures { result ≡ record { deleted = deleted.items; from = from.items; to = to.items; squeezed = squeezed.items } }
    {
        Tr {
            deleted,
            from,
            to,
            squeezed,
        }
    }

    fn tables(&self, alloc: Global) -> Result<Tables, NoMemory>
        ensures { IfOk result (λ v. AreTables self.now v) }
    {
        let deleted = Table::of_set(alloc, self.deleted.as_slice())?;
        let images = Table::of_images(alloc, self.from.as_slice(), self.to.as_slice())?;
        let squeezed = Table::of_set(alloc, self.squeezed.as_slice())?;
        Ok(Tables {
            deleted,
            images,
            squeezed,
        })
    }

    #[tactic(auto, using(crate::proofs::SetLemmas::not_flag_is))]
    fn is_kept(&self, tables: &Tables, b: u8) -> bool
        requires { AreTables self.now tables.now }
        ensures { result ≡ kept self.now b }
    {
        !tables.deleted.has(b)
    }

    #[tactic(auto, using(crate::proofs::SetLemmas::entry_is))]
    fn image(&self, tables: &Tables, b: u8) -> u8
        requires { AreTables self.now tables.now }
        ensures { result ≡ image self.now.from self.now.to b }
    {
        tables.images.at(b)
    }

    #[tactic(auto, using(crate::proofs::SetLemmas::flag_is))]
    fn is_squeezed(&self, tables: &Tables, c: u8) -> bool
        requires { AreTables self.now tables.now }
        ensures { result ≡ is_member self.now.squeezed c }
    {
        tables.squeezed.has(c)
    }

    fn repeats(&self, tables: &Tables, last: Option<u8>, c: u8) -> bool
        requires { AreTables self.now tables.now }
        ensures { result ≡ repeats self.now.squeezed last c }
    {
        match last {
            None => false,
            Some(last) => c == last && self.is_squeezed(tables, c),
        }
    }

    // One byte, and the last byte then.
    fn put(
        &self,
        tables: &Tables,
        b: u8,
        last: Option<u8>,
        output: &mut Vec<u8>,
    ) -> Result<Option<u8>, NoMemory>
        requires { AreTables self.now tables.now }
        ensures { IfOk result (λ r. (text : Text) → output.new.items ++ squeeze self.now.squeezed r (map (image self.now.from self.now.to) (filter (kept self.now) text)) ≡ output.old.items ++ squeeze self.now.squeezed last (map (image self.now.from self.now.to) (filter (kept self.now) (b ∷ text)))) }
    {
        if !self.is_kept(tables, b) {
            return Ok(last);
        }
        let c = self.image(tables, b);
        if self.repeats(tables, last, c) {
            return Ok(last);
        }
        output.push(c)?;
        Ok(Some(c))
    }

    fn put_all(&self, tables: &Tables, text: &[u8], output: &mut Vec<u8>) -> Result<(), NoMemory>
        requires { AreTables self.now tables.now }
        ensures { OnOk result (output.new.items ≡ output.old.items ++ tr_text self.now text.now) }
    {
        let mut last = None;
        'bytes: for b in text {
            last = self.put(tables, *b, last, output)?;
        }
        Ok(())
    }

    // What is left where bytes may be deleted or squeezed.
    fn selected(&self, alloc: Global, text: &[u8]) -> Result<Bytes, NoMemory>
        ensures { IfOk result (λ o. o ≡ tr_text self.now text.now) }
    {
        let tables = self.tables(alloc)?;
        let mut output = Vec::with_capacity(alloc, text.len())?;
        self.put_all(&tables, text, &mut output)?;
        Bytes::new(alloc, output)
    }

    // What the bytes become.
    fn images(&self, alloc: Global, text: &[u8]) -> Result<Bytes, NoMemory>
        ensures { IfOk result (λ o. o ≡ map (image self.now.from self.now.to) text.now) }
    {
        let images = Table::of_images(alloc, self.from.as_slice(), self.to.as_slice())?;
        let mut output = Vec::with_capacity(alloc, text.len())?;
        'bytes: for b in text {
            output.push(images.at(*b))?;
        }
        Bytes::new(alloc, output)
    }

    // Whether no byte is deleted or squeezed.
    fn only_translates(&self) -> bool
        ensures { result ≡ (is_empty self.now.deleted && is_empty self.now.squeezed) }
    {
        is_empty(self.deleted.as_slice()) && is_empty(self.squeezed.as_slice())
    }

    #[tactic(auto, using(crate::proofs::TrLemmas::translated))]
    fn output(&self, alloc: Global, text: &[u8]) -> Result<Bytes, NoMemory>
        ensures { IfOk result (λ o. o ≡ tr_text self.now text.now) }
    {
        if self.only_translates() {
            return self.images(alloc, text);
        }
        self.selected(alloc, text)
    }
}

impl Work for Tr {
    ghost use Rattle.ut_select.specs.Trs.{tr_job};

    ghost job = { tr_job };

    fn name(&self) -> &'static [u8] {
        b"tr"
    }

    fn failed(&self) -> u8 {
        1
    }

    fn out(&self) -> Option<&Bytes> {
        None
    }

    fn make(&self, alloc: Global, inputs: &[Input]) -> Result<Made, NoMemory> {
        let text = joined(alloc, inputs)?;
        let output = self.output(alloc, text.as_slice())?;
        let errors = refusal_lines(alloc, b"tr", inputs)?;
        let status = status_of(1, &errors);
        Ok(Made {
            output,
            errors,
            status,
        })
    }
}
