// What one search of a look-up asks for: the block length to try, and the key.
ghost use Rattle.std.specs.Prelude.{◌≡◌, ◌-◌, ◌%◌, ◌^◌};
ghost use Rattle.diagram.specs.Keys.{key as key_of};
ghost use Rattle.chain.specs.Masks.{longest_in};

// The longest of the lengths below a bound that the bits of a mask name. Of the bound the last six bits
// count, since no mask names a length of 64 or more.
pub fn longest_below(mask: u64, bound: u8) -> Option<u8>
    ensures { result ≡ longest_in mask (bound % 64) }
{
    let below = mask & ((1u64 << (bound & 63)) - 1);
    if below == 0 {
        None
    } else {
        Some((63 - below.leading_zeros()) as u8)
    }
}

// The least value of the block of this length that a value of a field of this width lies in.
pub fn least_value(width: u8, length: u8, value: u32) -> u32
    ensures { result ≡ value - value % 2 ^ (width - length) }
{
    let free = width.saturating_sub(length);
    if free < 32 { value >> free << free } else { 0 }
}

// The key of a block in a table of a side. Of the side the last two bits count, of the level three and of
// the length six, as many as a key has room for. (The five numbers are no struct: a look-up has the last
// two from a search, and the others from where it stands.)
pub fn block_key(side: u8, level: u8, node: u8, length: u8, value: u32) -> u64
    ensures { result ≡ key_of (side % 4) (level % 8) node (record { len = length % 64; value = value }) }
{
    ((side & 3) as u64) << 56
        | ((level & 7) as u64) << 48
        | (node as u64) << 40
        | ((length & 63) as u64) << 32
        | value as u64
}
