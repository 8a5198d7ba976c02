// Addresses by their numbers.
ghost use Rattle.std.specs.Prelude.{◌≡◌, ◌∷◌, [], ◌++◌};
ghost use Rattle.sheet.specs.Readings.{dotted_of, address_of};

use policy::rules::Range;

// The address of four numbers, if they are in range.
pub fn dotted(numbers: [u32; 4]) -> Option<u32>
    ensures { result ≡ dotted_of numbers }
{
    let [a, b, c, d] = numbers;
    if a > 255 || b > 255 || c > 255 || d > 255 {
        return None;
    }
    Some(((a * 256 + b) * 256 + c) * 256 + d)
}

// The block of an address and a length, if they are in range and no bit after the length is set.
pub fn block(numbers: [u32; 4], length: u32) -> Option<Range>
    ensures { result ≡ address_of (numbers ++ length ∷ []) }
{
    let low = dotted(numbers)?;
    if length > 32 {
        return None;
    }
    let size = 1u64 << (32 - length);
    if u64::from(low) % size != 0 {
        return None;
    }
    Some(Range {
        low,
        high: low + (size - 1) as u32,
    })
}
