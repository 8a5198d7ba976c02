// Worked examples.
ghost use Rattle.std.specs.Prelude.{◌≡◌, List, [], ◌∷◌, Err};
ghost use Rattle.policy.specs.Worked.{span, worked_rule_list, worked_header_list, half_rule_list, outside, Worked};
ghost use Rattle.policy.specs.declared.refusals.PlainRefusal.TheVariants.{NoRuleMet};

use crate::fields::Header;
use crate::plain::first_rule;
use crate::refusals::{Met, PlainRefusal};
use crate::rules::{Range, Rule};
use crate::verdict::Verdict;

const ANY_ADDRESS: Range = Range {
    low: 0,
    high: u32::MAX,
};

const ANY_PORT: Range = Range {
    low: 0,
    high: 65535,
};

const ANY_PROTOCOL: Range = Range { low: 0, high: 255 };

// The values from low to high.
fn values(low: u32, high: u32) -> Range
    ensures { result ≡ span low high }
{
    Range { low, high }
}

// Three rules: some packets are accepted, some rejected for reason 13, all others discarded.
pub fn worked_rules() -> [Rule; 3]
    ensures rules { result ≡ worked_rule_list }
    ensures worked { Worked }
{
    [
        Rule {
            ranges: [
                values(0x0A00_0000, 0x0AFF_FFFF),
                ANY_ADDRESS,
                ANY_PORT,
                values(80, 80),
                values(6, 6),
            ],
            code: 0,
        },
        Rule {
            ranges: [
                ANY_ADDRESS,
                ANY_ADDRESS,
                ANY_PORT,
                values(1, 65534),
                values(17, 17),
            ],
            code: 29,
        },
        Rule {
            ranges: [ANY_ADDRESS, ANY_ADDRESS, ANY_PORT, ANY_PORT, ANY_PROTOCOL],
            code: 1,
        },
    ]
}

// Three headers, which these rules decide by the codes 0, 29 and 1.
pub fn worked_headers() -> [Header; 3]
    ensures { result ≡ worked_header_list }
{
    [
        Header {
            numbers: [0x0A01_0203, 0xC0A8_0001, 4000, 80, 6],
        },
        Header {
            numbers: [0xC800_0001, 0x0101_0101, 53, 53, 17],
        },
        Header {
            numbers: [0x0A00_0001, 0, 0, 0, 6],
        },
    ]
}

// One rule, which accepts the addresses 0.0.0.0/1.
pub(crate) fn half_rules() -> [Rule; 1]
    ensures { result ≡ half_rule_list }
{
    [Rule {
        ranges: [
            values(0, 0x7FFF_FFFF),
            ANY_ADDRESS,
            ANY_PORT,
            ANY_PORT,
            ANY_PROTOCOL,
        ],
        code: 0,
    }]
}

// A header that this rule does not meet.
pub(crate) fn outside_header() -> Header
    ensures { result.numbers ≡ outside }
{
    Header {
        numbers: [0x8000_0000, 0, 0, 0, 0],
    }
}

// The plain call on that rule and that header.
pub fn worked_gap() -> Result<Met, PlainRefusal>
    ensures { result ≡ Err NoRuleMet }
{
    first_rule::<Verdict>(&half_rules(), &outside_header())
}
