// Steps that are put by their numbers among the nodes of a pool: each node of it is put once.
ghost use Rattle.std.specs.Prelude.{◌≡◌, ◌⊎◌, ◌<◌, ◌≤◌, List, length, IfOk, IfSome, OnOk};
ghost use Rattle.tr_nodes.specs.Tails.{Tail};
ghost use Rattle.tr_record.specs.Pool.{steps_under};
ghost use Rattle.tr_record.specs.declared.steps.Step.{Step as OneStep};
ghost use Rattle.tr_kept.specs.KnownPut.{AreRenumbered, IsChain, noted_of, StepsPut};
ghost use Rattle.tr_codec.specs.NodesPut.{Holds};

use rk_base::NoMemory;
use std::alloc::Global;
use tr_codec::NodeWriter;
use tr_record::{Record, StepPool};

// What is noted of a node; 0 of none.
fn noted(numbers: &[usize], at: usize) -> usize
    requires { at ≤ length numbers.now }
    ensures { result ≡ noted_of numbers.now at }
{
    if at == 0 { 0 } else { numbers[at - 1] }
}

// The nodes from a number on of which nothing is noted, and the number of what follows them.
fn unput(
    alloc: Global,
    pool: &StepPool,
    head: usize,
    numbers: &[usize],
) -> Result<(Vec<usize>, usize), NoMemory>
    requires within { head ≤ length pool.now.nodes }
    requires many { length numbers.now ≡ length pool.now.nodes }
    ensures chain { IfOk result (λ x. IsChain pool.now.nodes head x.0.items x.1) }
    ensures within { IfOk result (λ x. x.1 ≤ length pool.now.nodes) }
    ensures end { IfOk result (λ x. (x.1 ≡ 0) ⊎ (0 < noted_of numbers.now x.1)) }
{
    let mut left = Vec::new(alloc);
    let mut at = head;
    'nodes: while at != 0 && noted(numbers, at) == 0 {
        left.push(at)?;
        at = pool.next(at);
    }
    Ok((left, at))
}

// The steps of a number of the pool. It tells their number, and notes that of each node.
fn put_under(
    alloc: Global,
    writer: &mut NodeWriter,
    pool: &StepPool,
    head: usize,
    numbers: &mut Vec<usize>,
) -> Result<usize, NoMemory>
    requires within { head ≤ length pool.now.nodes }
    requires many { length numbers.old.items ≡ length pool.now.nodes }
    ensures put { IfOk result (λ number. (tails : List (Tail OneStep)) → Holds tails writer.old → AreRenumbered tails pool.now.nodes numbers.old.items →
        StepsPut tails pool.now.nodes (steps_under pool.now.nodes head) number numbers.new.items writer.new) }
    ensures many { OnOk result (length numbers.new.items ≡ length pool.now.nodes) }
{
    let (mut left, end) = unput(alloc, pool, head, numbers.as_slice())?;
    let mut number = noted(numbers.as_slice(), end);
    'nodes: while let Some(at) = left.pop() {
        let Some(step) = pool.step(at) else {
            unreachable!()
        };
        number = writer.put_node(number, step)?;
        numbers[at - 1] = number;
    }
    Ok(number)
}

/// The steps of a record, by their number in the pool where it is known. It tells their number.
pub(crate) fn put_steps(
    alloc: Global,
    writer: &mut NodeWriter,
    rec: &Record,
    pool: &StepPool,
    known: Option<usize>,
    numbers: &mut Vec<usize>,
) -> Result<usize, NoMemory>
    requires known { IfSome known (λ head. (head ≤ length pool.now.nodes) × (steps_under pool.now.nodes head ≡ rec.now.steps)) }
    requires many { length numbers.old.items ≡ length pool.now.nodes }
    ensures put { IfOk result (λ number. (tails : List (Tail OneStep)) → Holds tails writer.old → AreRenumbered tails pool.now.nodes numbers.old.items →
        StepsPut tails pool.now.nodes rec.now.steps number numbers.new.items writer.new) }
    ensures many { OnOk result (length numbers.new.items ≡ length pool.now.nodes) }
{
    match known {
        Some(head) => {
            let number = put_under(alloc, writer, pool, head, numbers)?;
            Ok(number)
        }
        None => {
            let number = writer.put_talk(alloc, &rec.steps)?;
            Ok(number)
        }
    }
}
