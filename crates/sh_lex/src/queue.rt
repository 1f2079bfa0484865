// The here-documents to come, in order.
ghost use Rattle.std.specs.Prelude.{◌≡◌, ◌≤◌, ◌++◌, ◌∷◌, [], drop, length, IfOk};
ghost use Rattle.sh_token.specs.Places.{is_none};
ghost use Rattle.sh_token.specs.Steps.{next as next_lem};

use rk_base::NoMemory;
use sh_token::place::HereDocument;
use std::alloc::Global;
use std::marker::Model;

/// Here-documents to come. Those whose bodies came stay in front, so that none is moved, until each one's body came.
#[derive(Drop)]
pub struct Queue {
    documents: Vec<HereDocument>,
    done: usize,
}

impl Model for Queue {
    ghost use Rattle.std.specs.Prelude.{List, drop, length, ◌≤◌};
    ghost use Rattle.sh_token.specs.HereDocuments.{Awaited};

    ghost Value = { List Awaited };

    ghost view = { λ q. drop q.done q.documents.items };

    ghost invariant = { λ q. q.done ≤ length q.documents.items };
}

impl Queue {
    pub(crate) fn new(alloc: Global) -> Queue
        ensures { result ≡ [] }
    {
        Queue {
            documents: Vec::new(alloc),
            done: 0,
        }
    }

    /// Those to come, the next first.
    pub(crate) fn left(&self) -> &[HereDocument]
        ensures { result.now ≡ self.now }
    {
        self.documents.split_at(self.done).1
    }

    pub(crate) fn is_empty(&self) -> bool
        ensures { result ≡ is_none self.now }
    {
        self.left().is_empty()
    }

    /// The next one: whether it is literal, how many levels are open at its operator, and whether tabs are dropped.
    pub(crate) fn next(&self) -> Option<(bool, usize, bool)>
        ensures { result ≡ next_lem self.now }
    {
        match self.left() {
            [] => None,
            [d, ..] => Some((d.quoted, d.levels, d.tabs)),
        }
    }

    pub(crate) fn push(&mut self, document: HereDocument) -> Result<(), NoMemory>
        ensures { IfOk result (λ _. self.new ≡ self.old ++ document ∷ []) }
    {
        self.documents.push(document)?;
        Ok(())
    }

    /// The next one's body came.
    pub(crate) fn advance(&mut self)
        ensures { self.new ≡ drop 1 self.old }
    {
        let done = next_of(&self.documents, self.done);
        self.done = without_done(&mut self.documents, done);
    }
}

// One more, where there is one.
fn next_of(documents: &Vec<HereDocument>, done: usize) -> usize
    requires { done ≤ length documents.now.items }
    ensures rest { drop result documents.now.items ≡ drop 1 (drop done documents.now.items) }
    ensures within { result ≤ length documents.now.items }
{
    if done < documents.len() {
        done + 1
    } else {
        done
    }
}

// Lets the documents go, where so many are done that none is to come; how many of those that stay are done.
fn without_done(documents: &mut Vec<HereDocument>, done: usize) -> usize
    requires { done ≤ length documents.old.items }
    ensures rest { drop result documents.new.items ≡ drop done documents.old.items }
    ensures within { result ≤ length documents.new.items }
{
    if done < documents.len() {
        done
    } else {
        documents.clear();
        0
    }
}
