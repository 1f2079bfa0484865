// How marks go through items from the last one to the first, at one place of a line that is gone along backward.
ghost use Rattle.std.specs.Prelude.{◌≡◌, IfOk};
ghost use Rattle.ut_bre.specs.Mirroring.{mirror_item, mirror};
ghost use Rattle.ut_bre.specs.Trees.{tree_of, trees_of};
ghost use Rattle.ut_bre.specs.Walking.{flow, step, flow_turn, flow_times, flow_items, step_turn, step_times, step_items};

use crate::flow::step_one;
use crate::mark::{Flow, Mark, earlier, pop};
use crate::tree::{Item, Times};
use rk_base::NoMemory;

#[cycle(flow_back)]
fn flow_turn_back<'a>(item: &Item, marks: &'a [Mark], mark: Mark) -> Flow<'a>
    ensures { flow result.out result.rest.now ≡ flow_turn (mirror_item (tree_of item.now)) (flow mark marks.now) }
{
    match item {
        Item::One(_, _) => pop(marks),
        Item::Group(_, _, body) => flow_back(body.as_slice(), marks, mark),
    }
}

/// What comes out of so many turns of an item that is gone through backward, where this mark goes in.
#[cycle(flow_back)]
pub(crate) fn flow_times_back<'a>(
    item: &Item,
    times: Times,
    marks: &'a [Mark],
    mark: Mark,
) -> Flow<'a>
    ensures { flow result.out result.rest.now ≡ flow_times (flow_turn (mirror_item (tree_of item.now))) times (flow mark marks.now) }
{
    let mut here = Flow {
        out: mark,
        rest: marks,
    };
    'needed: for _ in 0..times.least {
        here = flow_turn_back(item, here.rest, here.out);
    }
    match times.beyond {
        None => {
            let after = flow_turn_back(item, here.rest, here.out);
            Flow {
                out: earlier(here.out, after.out),
                rest: after.rest,
            }
        }
        Some(more) => {
            let mut out = here.out;
            'more: for _ in 0..more {
                here = flow_turn_back(item, here.rest, here.out);
                out = earlier(out, here.out);
            }
            Flow {
                out,
                rest: here.rest,
            }
        }
    }
}

// Depth: 64 levels of groups.
/// What comes out of items, the last of which this mark goes into.
#[cycle(flow_back)]
pub(crate) fn flow_back<'a>(items: &[Item], marks: &'a [Mark], mark: Mark) -> Flow<'a>
    ensures { flow result.out result.rest.now ≡ flow_items (mirror (trees_of items.now)) (flow mark marks.now) }
{
    let mut here = Flow {
        out: mark,
        rest: marks,
    };
    let mut at = items.len();
    'items: while at > 0 {
        at -= 1;
        let item = &items[at];
        here = flow_times_back(item, item.times(), here.rest, here.out);
    }
    here
}

#[cycle(step_back)]
fn step_turn_back<'a>(
    item: &Item,
    marks: &'a [Mark],
    mark: Mark,
    b: u8,
    next: &mut Vec<Mark>,
) -> Result<Flow<'a>, NoMemory>
    ensures { IfOk result (λ r. step r.out r.rest.now next.new.items ≡ step_turn b (mirror_item (tree_of item.now)) (step mark marks.now next.old.items)) }
{
    match item {
        Item::One(_, one) => step_one(one, marks, mark, b, next),
        Item::Group(_, _, body) => step_back(body.as_slice(), marks, mark, b, next),
    }
}

/// Marks go back through the turns of an item, and over the byte b to the marks before it.
#[cycle(step_back)]
pub(crate) fn step_times_back<'a>(
    item: &Item,
    times: Times,
    marks: &'a [Mark],
    mark: Mark,
    b: u8,
    next: &mut Vec<Mark>,
) -> Result<Flow<'a>, NoMemory>
    ensures { IfOk result (λ r. step r.out r.rest.now next.new.items ≡ step_times (flow_turn (mirror_item (tree_of item.now))) (step_turn b (mirror_item (tree_of item.now))) times (step mark marks.now next.old.items)) }
{
    let mut here = Flow {
        out: mark,
        rest: marks,
    };
    'needed: for _ in 0..times.least {
        here = step_turn_back(item, here.rest, here.out, b, next)?;
    }
    match times.beyond {
        None => {
            let again = earlier(here.out, flow_turn_back(item, here.rest, here.out).out);
            let after = step_turn_back(item, here.rest, again, b, next)?;
            Ok(Flow {
                out: again,
                rest: after.rest,
            })
        }
        Some(more) => {
            let mut out = here.out;
            'more: for _ in 0..more {
                here = step_turn_back(item, here.rest, here.out, b, next)?;
                out = earlier(out, here.out);
            }
            Ok(Flow {
                out,
                rest: here.rest,
            })
        }
    }
}

// Depth: 64 levels of groups.
/// Marks go back through items, and over the byte b to the marks before it.
#[cycle(step_back)]
pub(crate) fn step_back<'a>(
    items: &[Item],
    marks: &'a [Mark],
    mark: Mark,
    b: u8,
    next: &mut Vec<Mark>,
) -> Result<Flow<'a>, NoMemory>
    ensures { IfOk result (λ r. step r.out r.rest.now next.new.items ≡ step_items b (mirror (trees_of items.now)) (step mark marks.now next.old.items)) }
{
    let mut here = Flow {
        out: mark,
        rest: marks,
    };
    let mut at = items.len();
    'items: while at > 0 {
        at -= 1;
        let item = &items[at];
        here = step_times_back(item, item.times(), here.rest, here.out, b, next)?;
    }
    Ok(here)
}
