// Blocks of values, and the cover of a run by them.
ghost use Rattle.std.specs.Prelude.{◌≡◌, ◌+◌, ◌^◌, ◌<◌, ◌≤◌};
ghost use Rattle.diagram.specs.Blocks.{largest, room};
ghost use Rattle.compile.specs.Pieces.{First};

// A block: its length, its least value and its last value.
#[derive(Clone, Copy)]
pub struct Block {
    pub length: u32,
    pub value: u32,
    pub last: u32,
}

// Whether 2^e values from low on are a block, and end within high.
fn has_room(low: u32, high: u32, e: u32) -> bool
    requires { e ≤ 32 }
    ensures { result ≡ room low high e }
{
    let size = 1u64 << e;
    low as u64 % size == 0 && low as u64 + size <= high as u64 + 1
}

// The largest e, at most the width, such that 2^e values from low on are a block and end within high.
fn largest_exponent(low: u32, high: u32, width: u32) -> u32
    requires { width ≤ 32 }
    ensures value { result ≡ largest low high width }
    ensures bound { result ≤ width }
    ensures within { low ≤ high → low + 2 ^ result ≤ high + 1 }
{
    for e in (1..=width).rev() {
        if has_room(low, high, e) {
            return e;
        }
    }
    0
}

// The first block of the cover of the values from low to high.
pub(crate) fn next_block(low: u32, high: u32, width: u32) -> Block
    requires narrow { width ≤ 32 }
    requires ordered { low ≤ high }
    requires fits { high < 2 ^ width }
    ensures { First low high width result }
{
    let e = largest_exponent(low, high, width);
    let size = 1u64 << e;
    Block {
        length: width - e,
        value: low,
        last: (low as u64 + size - 1) as u32,
    }
}
