// What is proved of diagrams and covers.
ghost use Rattle.std.specs.Prelude.{◌≡◌, [], ◌∷◌, map, length};
ghost use Rattle.diagram.specs.Blocks.{Block, cover, CoverCovers};
ghost use Rattle.diagram.specs.Diagrams.{Determined};
ghost use Rattle.diagram.specs.Keys.{key};

// A decision has at most one reduced diagram.
pub fn reduced_is_unique()
    ensures { Determined }
{}

// The cover of a run: in rising order, each time the largest block that begins there and ends within the run.
pub fn cover_is_right()
    ensures { CoverCovers }
{}

// Worked examples: 1 to 65,534 over 16 bits has 30 blocks, 18 to 255 over 8 bits has blocks of these lengths,
// and the row of side 0 for 10.0.0.0/8 in the first table has this key.
pub fn worked_covers()
    ensures thirty { length (cover 16 1 65534) ≡ 30 }
    ensures lengths { map (λ (b : Block). b.len) (cover 8 18 255) ≡ 7 ∷ 6 ∷ 5 ∷ 3 ∷ 2 ∷ 1 ∷ [] }
    ensures first_key { key 0 1 0 (record { len = 8; value = 0x0A000000 }) ≡ 0x000100080A000000 }
{}
