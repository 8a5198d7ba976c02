// The levels of a diagram in the making: nodes with their edges.
ghost use Rattle.std.specs.Prelude.{◌≡◌, ◌<◌, ◌≤◌, ◌≢◌, ℕ, [], ◌∷◌, ◌++◌, length, MatchOption, slice_index_or};
ghost use Rattle.diagram.specs.Drafts.{added};
ghost use Rattle.diagram.specs.States.{total};
ghost use Rattle.compile.specs.Nodes.{nodes_in, Within};
ghost use Rattle.compile.specs.Vectors.{items};

use crate::vectors::FixedVec;
use diagram::edges::Edge;

// The most nodes of a level, and the most edges of all its nodes.
pub const MAX_NODES: usize = 256;

pub const MAX_EDGES: usize = 1024;

// Where the edges of a node stand.
#[derive(Clone, Copy, Default)]
pub struct Slot {
    pub start: usize,
    pub count: usize,
}

// The edges of a node in the making.
pub type Draft = FixedVec<Edge, MAX_EDGES>;

// Takes the last edge away where it leads to this place, so that a further one may stand for both.
fn reopen(draft: &mut Draft, to: u16)
    ensures { (high : ℕ) → items draft.new ++ record { high = high; to = to } ∷ [] ≡ added (items draft.old) high to }
{
    if let Some(last) = draft.as_slice().last() {
        if last.to == to {
            draft.shorten();
        }
    }
}

// Adds a run, or lengthens the last one where it leads to the same place; none, where there is no room.
pub(crate) fn add_run(draft: &mut Draft, high: u32, to: u16) -> Option<()>
    ensures { MatchOption result (1024 < length (added (items draft.old) high to)) (λ _. items draft.new ≡ added (items draft.old) high to) }
{
    reopen(draft, to);
    draft.try_push(Edge { high, to })
}

// The nodes of one level. Their edges stand one after another, a slot for each node: a level has its
// memory from the start, so that no node has a vector of its own.
#[derive(Clone, Copy)]
pub struct Level {
    pub edges: FixedVec<Edge, MAX_EDGES>,
    pub slots: FixedVec<Slot, MAX_NODES>,
    ghost within: { Within (items edges) (items slots) },
    ghost sum: { length (items edges) ≡ total (nodes_in (items edges) (items slots)) },
}

impl Level {
    ghost use Rattle.compile.specs.Levels.{nodes_of, Shared, Crowded, Refused};

    // A level without nodes.
    pub(crate) fn new() -> Level
        ensures { nodes_of result ≡ [] }
    {
        Level {
            edges: FixedVec::new(),
            slots: FixedVec::new(),
        }
    }

    // Takes all nodes away.
    pub(crate) fn clear(&mut self)
        ensures { nodes_of self.new ≡ [] }
    {
        self.edges.clear();
        self.slots.clear();
    }

    // How many nodes there are.
    pub(crate) fn len(&self) -> usize
        ensures count { result ≡ length (nodes_of self.now) }
        ensures few { result ≤ 256 }
    {
        self.slots.len()
    }

    // The edges of a node.
    pub(crate) fn node(&self, node: usize) -> &[Edge]
        requires { node < length (nodes_of self.now) }
        ensures { result.now ≡ slice_index_or (nodes_of self.now) node [] }
    {
        let slot = self.slots.as_slice()[node];
        &self.edges.as_slice()[slot.start..slot.start + slot.count]
    }

    // The number of the node with these edges. (Nodes go by number, here and where rows are written: their
    // edges are read through their slots.)
    fn find(&self, edges: &[Edge]) -> Option<u16>
        ensures { MatchOption result ((k : ℕ) → k < length (nodes_of self.now) → slice_index_or (nodes_of self.now) k [] ≢ edges.now) (λ k. (k < length (nodes_of self.now)) × (slice_index_or (nodes_of self.now) k [] ≡ edges.now)) }
    {
        for k in 0..self.len() {
            if self.node(k) == edges {
                return Some(k as u16);
            }
        }
        None
    }

    // A further node with these edges; or none, where there is no room.
    fn append(&mut self, edges: &[Edge]) -> Option<u16>
        ensures { MatchOption result (Crowded self.old edges.now) (λ k. (nodes_of self.new ≡ nodes_of self.old ++ edges.now ∷ []) × (k ≡ length (nodes_of self.old))) }
    {
        if self.slots.len() >= MAX_NODES {
            return None;
        }
        let node = self.len() as u16;
        let start = self.edges.len();
        self.edges.try_extend_from_slice(edges)?;
        self.slots.push(Slot {
            start,
            count: edges.len(),
        });
        Some(node)
    }

    // The node of the level with these edges: one that is there, or a new one.
    pub(crate) fn share(&mut self, edges: &[Edge]) -> Option<u16>
        ensures { MatchOption result (Refused self.old edges.now) (λ k. Shared self.old self.new edges.now k) }
    {
        match self.find(edges) {
            Some(k) => Some(k),
            None => self.append(edges),
        }
    }
}
