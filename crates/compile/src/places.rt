// The record that a diagram is made in.
ghost use Rattle.std.specs.Prelude.{◌≡◌, ◌≤◌, [], length, MatchOption, slice_index_or};
ghost use Rattle.compile.specs.Levels.{AllBare};
ghost use Rattle.compile.specs.Places.{Bare, diagram_in};

use crate::caches::Known;
use crate::levels::{Level, MAX_NODES};
use crate::rows::{Lengths, Rows};
use policy::fields::FIELDS;

// Empties all levels.
pub(crate) fn clear_levels(levels: &mut [Level; FIELDS])
    ensures five { length levels.new ≡ 5 }
    ensures bare { AllBare levels.new }
{
    for level in levels.iter_mut() {
        level.clear();
    }
}

// How many sets of live rules are remembered at a time.
const MEMORY: usize = 4096;

// Where the diagram of a list is made, with the rows of its chain.
#[derive(Clone, Copy)]
pub struct Place {
    pub(crate) levels: [Level; FIELDS],
    pub(crate) rows: Rows,
    pub(crate) lengths: Lengths,
    pub(crate) known: [Option<Known>; MEMORY],
}

impl Place {
    // A place with an empty diagram.
    pub fn new() -> Place
        ensures { Bare result }
    {
        Place {
            levels: [Level::new(); FIELDS],
            rows: Rows::new(),
            lengths: [[0; MAX_NODES]; FIELDS],
            known: [None; MEMORY],
        }
    }

    // How many nodes a level has; levels count from 0, and there are five.
    pub fn node_count(&self, level: usize) -> Option<usize>
        ensures { MatchOption result (5 ≤ level) (λ n. n ≡ length (slice_index_or (diagram_in self.now) level [])) }
    {
        let level = self.levels.get(level)?;
        Some(level.len())
    }

    // Leaves an empty diagram in the place.
    pub fn clear(&mut self)
        ensures { Bare self.new }
    {
        clear_levels(&mut self.levels);
    }
}
