// Where the search for a key begins.
ghost use Rattle.std.specs.Prelude.{◌≡◌, ◌<◌, ◌≤◌};
ghost use Rattle.hash_store.specs.Cells.{mixed, home_of};

// Spreads every bit of the key over all bits.
fn mix(key: u64) -> u64
    ensures { result ≡ mixed key }
{
    let a = (key ^ (key >> 33)).wrapping_mul(0xFF51_AFD7_ED55_8CCD);
    let b = (a ^ (a >> 33)).wrapping_mul(0xC4CE_B9FE_1A85_EC53);
    b ^ (b >> 33)
}

// The cell among m where the search for the key begins.
pub(crate) fn home(key: u64, m: usize) -> usize
    requires some { 0 < m }
    requires most { m ≤ 4096 }
    ensures home { result ≡ home_of key m }
    ensures below { result < m }
{
    (mix(key) % m as u64) as usize
}
