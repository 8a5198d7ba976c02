// What is known of live rules, kept by a hash: an entry may be overwritten at any time. It is no map of
// the library, since a place has its memory from the start and takes no more.
ghost use Rattle.std.specs.Prelude.{◌≡◌, ℕ, ◌<◌, Some, None, IfSome, slice_index_or, slice_set};
ghost use Rattle.compile.specs.Builds.{Holds};

use crate::lives::Rest;

// The node of what is left of a list.
#[derive(Clone, Copy)]
pub struct Known {
    pub rest: Rest,
    pub node: u16,
}

// The place of an entry.
fn place(rest: Rest, places: usize) -> usize
    requires { 0 < places }
    ensures { result < places }
{
    let mixed = (rest.live.bits ^ rest.field as u64).wrapping_mul(0x9E37_79B9_7F4A_7C15);
    (mixed ^ mixed >> 32) as usize % places
}

// The node that is known for what is left of a list.
pub(crate) fn recall(known: &[Option<Known>], rest: Rest) -> Option<u16>
    ensures { IfSome result (λ k. Holds known.now (record { rest = rest; node = k })) }
{
    if known.is_empty() {
        return None;
    }
    let entry = known[place(rest, known.len())]?;
    if entry.rest == rest {
        Some(entry.node)
    } else {
        None
    }
}

// Keeps an entry.
pub(crate) fn remember(known: &mut [Option<Known>], entry: Known)
    ensures { (i : ℕ) × (known.new ≡ slice_set known.old i (Some entry)) }
{
    if !known.is_empty() {
        let at = place(entry.rest, known.len());
        known[at] = Some(entry);
    }
}

// Forgets all.
pub(crate) fn forget(known: &mut [Option<Known>])
    ensures { (i : ℕ) → slice_index_or known.new i None ≡ None }
{
    known.fill(None);
}
