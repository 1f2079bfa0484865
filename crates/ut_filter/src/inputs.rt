// The inputs of a filter.
ghost use Rattle.std.specs.Prelude.{◌≡◌, IfOk};
ghost use Rattle.ut_filter.specs.Filters.{or_dash};

use rk_base::{Bytes, NoMemory, WordList};
use std::alloc::Global;
use std::collections::VecDeque;

/// Words as a queue, the first in front.
pub fn queue_of(alloc: Global, words: &[Bytes]) -> Result<VecDeque<Bytes>, NoMemory>
    ensures { IfOk result (λ q. q.items ≡ words.now) }
{
    let mut queue = VecDeque::new(alloc);
    for word in words {
        let word = word.copy()?;
        queue.push_back(word)?;
    }
    Ok(queue)
}

/// The operands, or `-`, the standard input, where there is none.
pub fn or_dash(alloc: Global, operands: WordList) -> Result<WordList, NoMemory>
    ensures { IfOk result (λ inputs. inputs ≡ or_dash operands) }
{
    match operands.as_slice() {
        [] => {
            let mut inputs = WordList::new(Vec::new(alloc));
            let dash = Bytes::from_slice(alloc, b"-")?;
            inputs.push(dash)?;
            Ok(inputs)
        }
        [_, ..] => Ok(operands),
    }
}
