// Taking a row out of the cells.
ghost use Rattle.std.specs.Prelude.{◌≡◌, ◌<◌, ◌≤◌, length, drop};
ghost use Rattle.hash_store.specs.Cells.{cell_at};
ghost use Rattle.hash_store.specs.Shifts.{Ready, Settled, Removed};

use crate::homes::home;
use crate::probe::{around, between};
use store::row::Row;

// Fills the cell i, whose row goes, with the next row whose way from its home passes that cell, then
// the cell of that row, and so on. Returns the cell that is left over. (By the distance, since cells are
// written while they are walked, around the last one.)
fn settle(cells: &mut [Option<Row>], m: usize, i: usize) -> usize
    requires here { i < m }
    requires within { m ≤ length cells.old }
    requires most { m ≤ 4096 }
    ensures below { result < m }
    ensures beyond { drop 4096 cells.new ≡ drop 4096 cells.old }
    ensures settled { Ready (cell_at cells.old) m i → Settled (cell_at cells.old) (cell_at cells.new) m i result }
{
    let mut hole = i;
    for d in 1..m {
        let j = around(i, d, m);
        let Some(row) = cells[j] else {
            return hole;
        };
        let far = between(home(row.key, m), j, m);
        let gap = between(hole, j, m);
        if gap <= far {
            cells[hole] = Some(row);
            hole = j;
        }
    }
    hole
}

// Takes out the row in the cell i. Every other row is still found from its home.
pub(crate) fn remove(cells: &mut [Option<Row>], m: usize, i: usize)
    requires here { i < m }
    requires within { m ≤ length cells.old }
    requires most { m ≤ 4096 }
    ensures beyond { drop 4096 cells.new ≡ drop 4096 cells.old }
    ensures removed { Ready (cell_at cells.old) m i → Removed (cell_at cells.old) (cell_at cells.new) m i }
{
    let hole = settle(cells, m, i);
    cells[hole] = None;
}
