// The rows of a chain.
ghost use Rattle.std.specs.Prelude.{◌+◌, ◌<◌, length, MatchOption};
ghost use Rattle.policy.specs.Fields.{widths};
ghost use Rattle.diagram.specs.Chains.{rows_of_level, chain};
ghost use Rattle.compile.specs.Levels.{nodes_of, diagram_of, AllRuns, EachRuns};
ghost use Rattle.compile.specs.Writing.{Levelled, Chained};
ghost use Rattle.compile.specs.Vectors.{items};

use crate::levels::{Level, MAX_NODES};
use crate::rows::{Lengths, Rows, Table};
use policy::fields::{FIELDS, WIDTHS};

impl Level {
    // Writes the rows of all nodes of the level, and which block lengths occur in each table; none, where
    // there is no room. The level is told by the table of its first node.
    fn write_rows(
        &self,
        first: Table,
        rows: &mut Rows,
        lengths: &mut [u64; MAX_NODES],
    ) -> Option<()>
        requires { AllRuns first.width (nodes_of self.now) }
        ensures { MatchOption result (1024 < length (items rows.old) + length (rows_of_level first.side first.width first.level 0 (nodes_of self.now))) (λ _. Levelled (items rows.old) (items rows.new) lengths.new first.side first.width first.level (nodes_of self.now)) }
    {
        for node in 0..self.len() {
            let table = Table {
                side: first.side,
                level: first.level,
                node: node as u8,
                width: first.width,
            };
            lengths[node] = table.node_rows(self.node(node), rows)?.bits;
        }
        Some(())
    }
}

// Writes the rows of all levels, by level, node and value, and tells for each table which lengths occur; none,
// where there is no room.
pub(crate) fn chain_rows(
    levels: &[Level; FIELDS],
    side: u8,
    rows: &mut Rows,
    lengths: &mut Lengths,
) -> Option<()>
    requires side { side < 4 }
    requires runs { EachRuns (diagram_of levels.now) }
    ensures { MatchOption result (1024 < length (chain side widths (diagram_of levels.now))) (λ _. Chained (items rows.new) lengths.new side (diagram_of levels.now)) }
{
    rows.clear();
    for (field, level) in levels.iter().enumerate() {
        let first = Table {
            side,
            level: field as u8 + 1,
            node: 0,
            width: WIDTHS[field],
        };
        level.write_rows(first, rows, &mut lengths[field])?;
    }
    Some(())
}
