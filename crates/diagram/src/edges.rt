// Edges of a diagram.

// An edge: the last value of a run of consecutive values, and where they lead: to a node of the next
// level, or at the last level to a code.
#[derive(Clone, Copy, PartialEq, Eq, Default, Debug)]
pub struct Edge {
    pub high: u32,
    pub to: u16,
}
