// The objects in a value, each a cell of its own.
ghost use Rattle.std.specs.Prelude.{◌≡◌};
ghost use Rattle.slots.specs.Objects.{cell_known, KnownIs};

use values::cells::{COLLECTIONS, OBJECTS};

// Whether the cell is no object's, or that of one of n objects.
fn known(n: u64, cell: u64) -> bool
    ensures { result ≡ cell_known n cell }
{
    cell < OBJECTS || COLLECTIONS <= cell || cell - OBJECTS < n
}

// Whether each object in the value is one of n objects.
pub fn all_known(cells: &[u64], n: u64) -> bool
    ensures { KnownIs cells.now n result }
{
    cells.iter().all(|&cell| known(n, cell))
}
