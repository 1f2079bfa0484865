// Rows made and lengthened by value, so that no caller has one to let go where there is no memory.
ghost use Rattle.std.specs.Prelude.{◌≡◌, ◌∷◌, ◌++◌, [], IfOk};

use rk_base::NoMemory;
use sh_nodes::Row;
use std::alloc::Global;

/// One item.
pub fn one<T: Drop>(alloc: Global, item: T) -> Result<Row<T>, NoMemory>
    ensures { IfOk result (λ r. r ≡ item ∷ []) }
{
    in_front(item, Row::new(alloc))
}

/// An item in front of a row.
pub fn in_front<T: Drop>(item: T, mut row: Row<T>) -> Result<Row<T>, NoMemory>
    ensures { IfOk result (λ r. r ≡ item ∷ row) }
{
    row.add(item)?;
    Ok(row)
}

/// A row in front of a row.
pub fn all_in_front<T: Drop>(front: Row<T>, mut row: Row<T>) -> Result<Row<T>, NoMemory>
    ensures { IfOk result (λ r. r ≡ front ++ row) }
{
    row.add_all(front)?;
    Ok(row)
}
