// The numbers of a key's records.
ghost use Rattle.std.specs.Prelude.{◌≡◌, ◌≢◌, ℕ, ◌+◌, ◌<◌, ◌++◌, length, IfOk, IfNone, IfSome, OnOk};
ghost use Rattle.tr_record.specs.Generations.{records};
ghost use Rattle.tr_record.specs.Places.{places_from, places_of};
ghost use Rattle.tr_record.specs.Rec.{rec_at};

use rk_base::NoMemory;
use rk_calls::Key;
use std::alloc::Global;
use tr_record::{Kept, Table};

// A number that is so much greater; `NoMemory` where no number is.
fn more(number: usize, by: usize) -> Result<usize, NoMemory>
    ensures { IfOk result (λ n. n ≡ number + by) }
{
    match number.checked_add(by) {
        Some(n) => Ok(n),
        None => Err(NoMemory),
    }
}

// The place of the record of this key and ordinal in a table, where there is one. Tables of builds of one script mostly have it at one
// place: where it stands at the one that is guessed it isn't sought by the index.
fn place_near(table: &Table, key: &Key, ordinal: u64, guess: usize) -> Option<usize>
    ensures some { IfSome result (λ i. (i < length table.now) × ((rec_at i table.now).key ≡ key.now) × ((rec_at i table.now).ordinal ≡ ordinal)) }
    ensures none { IfNone result ((i : ℕ) → i < length table.now → (rec_at i table.now).key ≡ key.now → (rec_at i table.now).ordinal ≢ ordinal) }
{
    if guess < table.len() {
        let rec = table.at(guess);
        if rec.ordinal == ordinal && rec.key.same(key) {
            return Some(guess);
        }
    }
    table.place(key, ordinal)
}

// The place of a table's first record of a key by its number, where there is one; else the one that was guessed. The table's first
// record has this number, and those of the tables before so many.
fn next_guess(numbers: &Vec<usize>, had: usize, first: usize, guess: usize) -> usize {
    match numbers.get(had) {
        Some(number) => number.saturating_sub(first),
        None => guess,
    }
}

// The numbers of a table's records of a key are put behind others; its first record has this number.
fn add_numbers(
    numbers: &mut Vec<usize>,
    table: &Table,
    key: &Key,
    first: usize,
    guess: usize,
) -> Result<(), NoMemory>
    ensures { OnOk result (numbers.new.items ≡ numbers.old.items ++ places_from first key.now table.now) }
{
    let _numbered = table.as_slice();
    'ordinals: for ordinal in 0..table.count(key) {
        let Some(i) = place_near(table, key, ordinal as u64, guess) else {
            unreachable!()
        };
        let number = more(first, i)?;
        numbers.push(number)?;
    }
    Ok(())
}

/// The numbers of the records of a key among those of all tables, ascending.
pub(crate) fn numbers_of(alloc: Global, kept: &Kept, key: &Key) -> Result<Vec<usize>, NoMemory>
    ensures { IfOk result (λ numbers. numbers.items ≡ places_of key.now (records kept.now)) }
{
    let mut numbers = Vec::new(alloc);
    let mut first: usize = 0;
    let mut guess: usize = 0;
    'tables: for k in 0..kept.len() {
        let Some(table) = kept.table(k) else {
            unreachable!()
        };
        let had = numbers.len();
        add_numbers(&mut numbers, table, key, first, guess)?;
        guess = next_guess(&numbers, had, first, guess);
        first = more(first, table.len())?;
    }
    Ok(numbers)
}
