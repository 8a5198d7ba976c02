// Which ranges and rules are good.
ghost use Rattle.std.specs.Prelude.{◌≡◌, ◌≤◌, true, false};
ghost use Rattle.policy.specs.Fields.{widths};
ghost use Rattle.policy.specs.Shapes.{shapes, Shaped, GoodRange, GoodRanges};

use crate::fields::{FIELDS, WIDTHS};
use crate::rules::{Range, Rule};

// The shape that a field's ranges have.
#[derive(Clone, Copy)]
pub enum Shape {
    // All values that share their top n bits, for some n.
    Block,
    // Any values from one to another.
    AnyRange,
    // One value, or all values.
    OneOrAll,
}

// The shape of each field's ranges. It stands beside the widths and not in one table with them: most
// of what is said of headers goes over the widths alone, and no proof can name a constant of structs.
pub const SHAPES: [Shape; FIELDS] = [
    Shape::Block,
    Shape::Block,
    Shape::AnyRange,
    Shape::AnyRange,
    Shape::OneOrAll,
];

// What the ranges of a field are like: how wide they may be, and their shape.
#[derive(Clone, Copy)]
struct Form {
    width: u32,
    shape: Shape,
    ghost narrow: { width ≤ 32 },
}

impl Range {
    // Whether the range is a block of a field of this width.
    fn is_block(&self, width: u32) -> bool
        requires { width ≤ 32 }
        ensures yes { result ≡ true → Shaped width Shape.Block self.now.low self.now.high }
        ensures otherwise { result ≡ false → Shaped width Shape.Block self.now.low self.now.high → ⊥ }
    {
        for n in 0..=width {
            let size = 1u64 << (width - n);
            if self.low as u64 % size == 0 && self.high as u64 == self.low as u64 + (size - 1) {
                return true;
            }
        }
        false
    }

    // Whether the range has the shape of the form.
    fn has_shape(&self, form: Form) -> bool
        ensures yes { result ≡ true → Shaped form.width form.shape self.now.low self.now.high }
        ensures otherwise { result ≡ false → Shaped form.width form.shape self.now.low self.now.high → ⊥ }
    {
        match form.shape {
            Shape::Block => self.is_block(form.width),
            Shape::AnyRange => true,
            Shape::OneOrAll => self.low == self.high
                || self.low == 0 && self.high as u64 == (1u64 << form.width) - 1,
        }
    }

    // Whether the range is good for a field of this form.
    fn is_good(&self, form: Form) -> bool
        ensures yes { result ≡ true → GoodRange form.width form.shape self.now }
        ensures otherwise { result ≡ false → GoodRange form.width form.shape self.now → ⊥ }
    {
        if self.low > self.high || self.high as u64 >> form.width != 0 {
            return false;
        }
        self.has_shape(form)
    }
}

impl Rule {
    // Whether each range of the rule is good for its field.
    pub fn has_good_ranges(&self) -> bool
        ensures yes { result ≡ true → GoodRanges widths shapes self.now.ranges }
        ensures otherwise { result ≡ false → GoodRanges widths shapes self.now.ranges → ⊥ }
    {
        for (field, range) in self.ranges.iter().enumerate() {
            let form = Form {
                width: WIDTHS[field],
                shape: SHAPES[field],
            };
            if !range.is_good(form) {
                return false;
            }
        }
        true
    }
}
