// Numbers of steps, as far as they are known.
ghost use Rattle.std.specs.Prelude.{◌≡◌, ℕ, [], Some, map, slice_get, IfOk, IfSome};

use crate::pool::StepPool;
use rk_base::NoMemory;
use std::alloc::Global;
use std::marker::Model;
use std::rc::Rc;

/// The numbers that the steps of a table's records have among nodes, for as many of the records as they are known of.
#[derive(Debug, Drop)]
pub struct KnownHeads {
    pool: Rc<StepPool>,
    heads: Vec<Option<usize>>,
}

impl Model for KnownHeads {
    ghost use Rattle.tr_record.specs.Known.{Known};

    ghost Value = { Known };

    ghost view = { λ k. record { nodes = k.pool.value.nodes; heads = k.heads.items } };
}

impl KnownHeads {
    /// These numbers of these nodes.
    pub fn new(pool: Rc<StepPool>, heads: Vec<Option<usize>>) -> KnownHeads
        ensures { result ≡ record { nodes = pool.value.nodes; heads = heads.items } }
    {
        KnownHeads { pool, heads }
    }

    /// The numbers of all records.
    pub fn all(alloc: Global, pool: &Rc<StepPool>, heads: &[usize]) -> Result<KnownHeads, NoMemory>
        ensures { IfOk result (λ it. it ≡ record { nodes = pool.now.value.nodes; heads = map (λ (head : ℕ). Some head) heads.now }) }
    {
        let mut all = Vec::new(alloc);
        'heads: for head in heads {
            all.push(Some(*head))?;
        }
        let pool = pool.clone()?;
        Ok(KnownHeads::new(pool, all))
    }

    /// No numbers.
    pub fn none(alloc: Global) -> Result<KnownHeads, NoMemory>
        ensures { IfOk result (λ it. it ≡ record { nodes = []; heads = [] }) }
    {
        let pool = Rc::new(alloc, StepPool::new(alloc))?;
        Ok(KnownHeads {
            pool,
            heads: Vec::new(alloc),
        })
    }

    /// The nodes.
    pub fn pool(&self) -> &StepPool
        ensures { result.now.nodes ≡ self.now.nodes }
    {
        self.pool.as_ref()
    }

    /// The number of the steps of the record at a place, where it is known.
    pub fn head(&self, i: usize) -> Option<usize>
        ensures { IfSome result (λ head. slice_get self.now.heads i ≡ Some (Some head)) }
    {
        match self.heads.get(i) {
            Some(head) => *head,
            None => None,
        }
    }
}
