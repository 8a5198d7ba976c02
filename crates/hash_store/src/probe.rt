// The search for a key, from its home on and around.
ghost use Rattle.std.specs.Prelude.{◌≡◌, ◌<◌, ◌≤◌, length, MatchOption};
ghost use Rattle.hash_store.specs.Cells.{cell_at, at, Passed, Stops, Seen, Ends, Says};

use crate::homes::home;
use store::row::Row;

// Where a key's row stands, or the free cell where it would, or that there is neither: three cases, so
// it is no `Option` and no `Result`.
#[derive(Clone, Copy)]
pub(crate) enum Spot {
    Found(usize),
    Free(usize),
    Nowhere,
}

// The cell d places on from h, around.
pub(crate) fn around(h: usize, d: usize, m: usize) -> usize
    requires start { h < m }
    requires way { d < m }
    requires most { m ≤ 4096 }
    ensures place { result ≡ at m h d }
    ensures below { result < m }
{
    if h + d < m { h + d } else { h + d - m }
}

// How far on from h the cell j is, around: the other way of `around`.
pub(crate) fn between(h: usize, j: usize, m: usize) -> usize
    requires start { h < m }
    requires end { j < m }
    requires most { m ≤ 4096 }
    ensures place { at m h result ≡ j }
    ensures below { result < m }
{
    if h <= j { j - h } else { j + m - h }
}

// The first cell in `from..to` that has the key or is free.
// A loop by index, since `position` on the part of the slice makes hits slower (by 8 per cent with 1,024 rows).
fn scan(cells: &[Option<Row>], from: usize, to: usize, key: u64) -> Option<usize>
    requires { to ≤ length cells.now }
    ensures { MatchOption result (Passed (cell_at cells.now) key from to) (λ i. Stops (cell_at cells.now) key from to i) }
{
    for i in from..to {
        if cells[i].is_none_or(|row| row.key == key) {
            return Some(i);
        }
    }
    None
}

// The first cell from the key's home on, around, that has the key or is free.
fn stop(cells: &[Option<Row>], m: usize, key: u64) -> Option<usize>
    requires some { 0 < m }
    requires within { m ≤ length cells.now }
    requires most { m ≤ 4096 }
    ensures { MatchOption result (Seen (cell_at cells.now) m key m) (λ i. Ends (cell_at cells.now) m key i) }
{
    let h = home(key, m);
    scan(cells, h, m, key).or_else(|| scan(cells, 0, h, key))
}

// Looks for the key in the first m cells.
pub(crate) fn probe(cells: &[Option<Row>], m: usize, key: u64) -> Spot
    requires within { m ≤ length cells.now }
    requires most { m ≤ 4096 }
    ensures { Says (cell_at cells.now) m key result }
{
    if m == 0 {
        return Spot::Nowhere;
    }
    match stop(cells, m, key) {
        Some(i) if cells[i].is_some() => Spot::Found(i),
        Some(i) => Spot::Free(i),
        None => Spot::Nowhere,
    }
}
