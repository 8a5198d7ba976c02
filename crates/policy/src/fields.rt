// The fields of a header, and headers.
ghost use Rattle.std.specs.Prelude.{◌≡◌, true, false};
ghost use Rattle.policy.specs.Fields.{widths, Fit};

// How many fields a header has.
pub const FIELDS: usize = 5;

// The width of each field in bits: source and destination address, source and destination port,
// protocol.
pub const WIDTHS: [u32; FIELDS] = [32, 32, 16, 16, 8];

// A header is a number for each field. Numbers that do not fit their width can be written here; calls
// that take a header ask whether they fit.
#[derive(Clone, Copy, PartialEq, Eq, Debug)]
pub struct Header {
    pub numbers: [u32; FIELDS],
}

impl Header {
    // Whether each number fits its width.
    pub fn fits(&self) -> bool
        ensures yes { result ≡ true → Fit widths self.now.numbers }
        ensures otherwise { result ≡ false → Fit widths self.now.numbers → ⊥ }
    {
        for (field, number) in self.numbers.iter().enumerate() {
            if *number as u64 >> WIDTHS[field] != 0 {
                return false;
            }
        }
        true
    }
}
