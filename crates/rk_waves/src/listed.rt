// The commands that have a step in each wave.
ghost use Rattle.std.specs.Prelude.{◌≡◌, IfOk, OnOk, length, map, option_map, slice_get};
ghost use Rattle.rk_waves.specs.Listed.{HasOneMore, HasRoomFor, IsPlan, members_by};

use crate::Piece;
use rk_base::NoMemory;
use std::alloc::Global;
use std::collections::BTreeSet;
use std::marker::Model;

/// Waves of commands, from the first on: of each the numbers of the commands that have a step in it, ascending.
#[derive(Drop)]
pub struct Waves {
    waves: Vec<BTreeSet<usize>>,
}

impl Model for Waves {
    ghost use Rattle.std.specs.Prelude.{List, ℕ, map};

    ghost Value = { List (List ℕ) };

    ghost view = { λ w. map (λ s. s.keys) w.waves.items };
}

// Waves without a command behind the others, so that there are so many at least.
fn make_room(waves: &mut Vec<BTreeSet<usize>>, count: usize) -> Result<(), NoMemory>
    ensures { OnOk result (HasRoomFor count (map (λ s. s.keys) waves.old.items) (map (λ s. s.keys) waves.new.items)) }
{
    let alloc = *waves.allocator();
    'waves: for _ in waves.len()..count {
        waves.push(BTreeSet::new(alloc))?;
    }
    Ok(())
}

// A command has a step in a wave.
fn put(waves: &mut Vec<BTreeSet<usize>>, wave: usize, owner: usize) -> Result<(), NoMemory>
    ensures { OnOk result (HasOneMore wave owner (map (λ s. s.keys) waves.old.items) (map (λ s. s.keys) waves.new.items)) }
{
    make_room(waves, wave)?;
    let Some(k) = wave.checked_sub(1) else {
        return Ok(());
    };
    if let Some(list) = waves.get_mut(k) {
        list.insert(owner)?;
    }
    Ok(())
}

impl Waves {
    // Those of pieces with their waves.
    pub(crate) fn of(alloc: Global, pieces: &[Piece], waves: &[usize]) -> Result<Waves, NoMemory>
        requires { length waves.now ≡ length pieces.now }
        ensures { IfOk result (IsPlan (members_by pieces.now waves.now)) }
    {
        let mut lists = Vec::new(alloc);
        'pieces: for i in 0..pieces.len() {
            let piece = &pieces[i];
            put(&mut lists, waves[i], piece.owner)?;
        }
        Ok(Waves { waves: lists })
    }

    /// How many waves there are.
    pub fn len(&self) -> usize
        ensures { result ≡ length self.now }
    {
        self.waves.len()
    }

    /// The commands of the wave with this number, from 0 on; `None` exactly where there is none.
    pub fn commands(&self, k: usize) -> Option<&BTreeSet<usize>>
        ensures { option_map (λ s. s.now.keys) result ≡ slice_get self.now k }
    {
        self.waves.get(k)
    }
}
