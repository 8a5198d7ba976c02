// The rows of a table.
ghost use Rattle.std.specs.Prelude.{◌≡◌, ◌+◌, ◌-◌, ◌^◌, ◌<◌, ◌≤◌, length, MatchOption};
ghost use Rattle.diagram.specs.Blocks.{cover};
ghost use Rattle.diagram.specs.Diagrams.{Runs};

use crate::blocks::{Block, next_block};
use crate::levels::MAX_NODES;
use crate::sets::BitSet;
use crate::vectors::FixedVec;
use chain::probe::block_key;
use diagram::edges::Edge;
use policy::fields::FIELDS;
use store::row::{CHAIN_ROWS, Row};

// The rows of a chain in the making.
pub type Rows = FixedVec<Row, CHAIN_ROWS>;

// For each node of each level, which block lengths occur in its table, as the bits of a number.
pub type Lengths = [[u64; MAX_NODES]; FIELDS];

// A table: the side and the level that it is for, the node whose edges it holds, and how many bits a
// value of its field has.
#[derive(Clone, Copy)]
pub struct Table {
    pub side: u8,
    pub level: u8,
    pub node: u8,
    pub width: u32,
    ghost side_fits: { side < 4 },
    ghost level_fits: { level < 8 },
    ghost narrow: { width ≤ 32 },
}

impl Table {
    ghost use Rattle.diagram.specs.Chains.{rows_of_edge};
    ghost use Rattle.chain.specs.Tables.{table as tiles_in};
    ghost use Rattle.compile.specs.Writing.{key_in, rows_of, tiles_of, Extends};
    ghost use Rattle.compile.specs.Vectors.{items};

    // The key of a block in the table.
    fn key(&self, block: Block) -> u64
        requires { block.length ≤ 32 }
        ensures { result ≡ key_in self.now (record { len = block.length; value = block.value }) }
    {
        block_key(
            self.side,
            self.level,
            self.node,
            block.length as u8,
            block.value,
        )
    }

    // Writes the rows of an edge whose first value is low, and adds their block lengths to a mask; none,
    // where there is no room.
    fn edge_rows(&self, low: u32, edge: Edge, rows: &mut Rows, lengths: BitSet) -> Option<BitSet>
        requires { edge.high < 2 ^ self.now.width }
        ensures { MatchOption result (1024 < length (items rows.old) + length (cover self.now.width low edge.high)) (λ more. Extends (items rows.old) (items rows.new) lengths.bits more.bits (rows_of self.now edge.to (cover self.now.width low edge.high)) (tiles_of edge.to (cover self.now.width low edge.high))) }
    {
        let mut lengths = lengths;
        let mut next = low as u64;
        // The step is the size of the block that was found, so no range counts it.
        while next <= edge.high as u64 {
            let block = next_block(next as u32, edge.high, self.width);
            let row = Row {
                key: self.key(block),
                result: edge.to,
            };
            rows.try_push(row)?;
            lengths = lengths.with(block.length as usize);
            next = block.last as u64 + 1;
        }
        Some(lengths)
    }

    // Writes the rows of a node, and tells which block lengths occur in them; none, where there is no room.
    pub(crate) fn node_rows(&self, edges: &[Edge], rows: &mut Rows) -> Option<BitSet>
        requires { Runs (2 ^ self.now.width - 1) 0 edges.now }
        ensures { MatchOption result (1024 < length (items rows.old) + length (rows_of_edge (key_in self.now) self.now.width 0 edges.now)) (λ more. Extends (items rows.old) (items rows.new) 0 more.bits (rows_of_edge (key_in self.now) self.now.width 0 edges.now) (tiles_in self.now.width edges.now)) }
    {
        let mut lengths = BitSet::EMPTY;
        let mut low = 0u64;
        for edge in edges {
            lengths = self.edge_rows(low as u32, *edge, rows, lengths)?;
            low = edge.high as u64 + 1;
        }
        Some(lengths)
    }
}
