// Live rules: those that the values of the first fields still meet.
ghost use Rattle.std.specs.Prelude.{◌≡◌, ℕ, ◌+◌, ◌^◌, ◌<◌, ◌≤◌, true, false, [], length, IfSome, slice_index};
ghost use Rattle.diagram.specs.Masks.{bit};
ghost use Rattle.std.specs.Option.{option_map};
ghost use Rattle.policy.specs.Fields.{widths};
ghost use Rattle.compile.specs.Lives.{AllWhole, Whole, Widened, Cut, Narrowed, first_live_rule, code_at};
ghost use Rattle.compile.specs.Gaps.{NeverLive};

use crate::sets::BitSet;
use policy::fields::{FIELDS, WIDTHS};
use policy::rules::Rule;

// What is left of a list after the values of the first fields: the field that comes next, and the live
// rules.
#[derive(Clone, Copy, PartialEq, Eq, Debug)]
pub struct Rest {
    pub field: usize,
    pub live: BitSet,
}

// A run of values of a field that leave the same rules live: its last value, and these rules.
#[derive(Clone, Copy)]
pub struct Piece {
    pub end: u32,
    pub live: BitSet,
}

// Looks at one rule more for the run of values that begins at low: the run ends before a value at which
// the rule begins or ends, and the rule is kept where it takes these values. (That a field is one of the
// five is asked by each function that reads one: what is left of a whole header has none.)
fn narrow(rule: &Rule, i: usize, rest: Rest, low: u32, piece: Piece) -> Piece
    requires rule { i < 64 }
    requires field { rest.field < 5 }
    requires ahead { low ≤ piece.end }
    requires new { bit piece.live.bits i ≡ false }
    ensures { Narrowed rule.now i rest.live.bits rest.field low piece result }
{
    let range = rule.ranges[rest.field];
    if !rest.live.has(i) {
        return piece;
    }
    if range.high < low {
        return piece;
    }
    if low < range.low {
        return Piece {
            end: piece.end.min(range.low - 1),
            live: piece.live,
        };
    }
    Piece {
        end: piece.end.min(range.high),
        live: piece.live.with(i),
    }
}

// The highest value of a field.
pub(crate) fn top_of(field: usize) -> u32
    requires { field < 5 }
    ensures { result + 1 ≡ 2 ^ slice_index widths field }
{
    ((1u64 << WIDTHS[field]) - 1) as u32
}

// The set with one more rule, where that takes all values of this field and of the fields after it.
fn with_whole(rule: &Rule, i: usize, field: usize, after: BitSet, set: BitSet) -> BitSet
    requires rule { i < 64 }
    requires field { field < 5 }
    ensures { Widened rule.now i field after.bits set.bits result.bits }
{
    let range = rule.ranges[field];
    if range.low > 0 || range.high < top_of(field) || !after.has(i) {
        return set;
    }
    set.with(i)
}

// Of the rules that take all values of the fields after this one, those that take all of this field too.
fn whole_from(rules: &[Rule], field: usize, after: BitSet) -> BitSet
    requires few { length rules.now ≤ 64 }
    requires field { field < 5 }
    requires after { Whole rules.now (field + 1) after.bits }
    ensures { Whole rules.now field result.bits }
{
    let mut set = BitSet::EMPTY;
    for (i, rule) in rules.iter().enumerate() {
        set = with_whole(rule, i, field, after, set);
    }
    set
}

// A list of at most 64 rules, and for each field those that take all values of it and of all further
// fields; past the last field, all rules.
#[derive(Clone, Copy)]
pub(crate) struct Lives<'a> {
    pub(crate) rules: &'a [Rule],
    pub(crate) wholes: [BitSet; 6],
    ghost few: { length rules.now ≤ 64 },
    ghost whole: { AllWhole rules.now wholes },
}

impl<'a> Lives<'a> {
    pub(crate) fn new(rules: &'a [Rule]) -> Lives<'a>
        requires { length rules.now ≤ 64 }
        ensures { result.rules.now ≡ rules.now }
    {
        let mut wholes = [BitSet::FULL; 6];
        for field in (0..FIELDS).rev() {
            wholes[field] = whole_from(rules, field, wholes[field + 1]);
        }
        Lives { rules, wholes }
    }

    // The run of values that begins at low: up to the first value at which a live rule begins or ends.
    // Rules after the first one that takes all values of this run and of all further fields are left out.
    pub(crate) fn cut(&self, rest: Rest, low: u32, top: u32) -> Piece
        requires field { rest.field < 5 }
        requires low { low ≤ top }
        ensures { Cut self.now.rules.now rest.live.bits rest.field low top result }
    {
        let whole = self.wholes[rest.field + 1];
        let mut piece = Piece {
            end: top,
            live: BitSet::EMPTY,
        };
        for (i, rule) in self.rules.iter().enumerate() {
            piece = narrow(rule, i, rest, low, piece);
            if piece.live.has(i) && whole.has(i) {
                return piece;
            }
        }
        piece
    }

    // The first live rule.
    pub(crate) fn first(&self, live: BitSet) -> Option<usize>
        ensures value { result ≡ first_live_rule self.now.rules.now live.bits 5 [] }
        ensures within { IfSome result (λ i. i < length self.now.rules.now) }
    {
        let first = live.least();
        if first < self.rules.len() {
            Some(first)
        } else {
            None
        }
    }

    // The code of the first live rule.
    pub(crate) fn first_code(&self, live: BitSet) -> Option<u16>
        ensures { result ≡ option_map (code_at self.now.rules.now) (first_live_rule self.now.rules.now live.bits 5 []) }
    {
        let first = self.first(live)?;
        Some(self.rules[first].code)
    }

    // Whether the target cannot be the first live rule, since it comes after one that takes all numbers.
    pub(crate) fn shadows(&self, rest: Rest, target: Option<usize>) -> bool
        requires { rest.field < 5 }
        ensures { result ≡ true → NeverLive self.now.rules.now rest.live.bits rest.field target }
    {
        let whole = self.wholes[rest.field];
        for i in 0..self.rules.len() {
            if target == Some(i) {
                return false;
            }
            if rest.live.has(i) && whole.has(i) {
                return true;
            }
        }
        false
    }
}
