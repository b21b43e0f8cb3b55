//! Columns, to which rows are added.
ghost use Rattle.std.specs.Prelude.{◌≡◌, ℕ, ◌<◌, [], ◌∷◌, ◌++◌, IfOk, OnOk, length, slice_index_or};

use ea_model::OutOfMemory;
use std::alloc::Global;

/// That many columns with nothing in them.
pub(crate) fn no_columns<T: Drop>(alloc: Global, count: usize) -> Result<Vec<Vec<T>>, OutOfMemory>
    ensures count { IfOk result (λ columns. length columns.items ≡ count) }
    ensures none { IfOk result (λ columns. (k : ℕ) (d : _) → k < count
        → (slice_index_or columns.items k d).items ≡ []) }
{
    let mut columns = Vec::new(alloc);
    for _ in 0..count {
        columns.push(Vec::new(alloc))?;
    }
    Ok(columns)
}

/// Adds a row: to each column one item, at its end.
pub(crate) fn add_row<T: Drop>(columns: &mut [Vec<T>], row: Vec<T>) -> Result<(), OutOfMemory>
    requires { length row.items ≡ length columns.old }
    ensures count { length columns.new ≡ length columns.old }
    ensures each { OnOk result ((k : ℕ) (d : _) (x : _) → k < length columns.old
        → (slice_index_or columns.new k d).items
        ≡ (slice_index_or columns.old k d).items ++ slice_index_or row.items k x ∷ []) }
{
    let mut place = 0;
    for item in row {
        columns[place].push(item)?;
        place += 1;
    }
    Ok(())
}
