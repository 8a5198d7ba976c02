// The least header whose first rule met is a given one, or that meets no rule.
ghost use Rattle.std.specs.Prelude.{◌≡◌, ◌<◌, ◌≤◌, length, drop, MatchOption};
ghost use Rattle.compile.specs.Gaps.{LeastOfAll, Never, LeastLive, NeverLive, Excludes};

use crate::caches::{Known, forget, recall, remember};
use crate::lives::{Lives, Rest, top_of};
use crate::sets::BitSet;
use policy::fields::FIELDS;

// The least numbers, for the fields from this one on, that the target is the first live rule to take. They
// stand in their places of a header.
fn least(
    lives: &Lives,
    rest: Rest,
    target: Option<usize>,
    known: &mut [Option<Known>],
) -> Option<[u32; FIELDS]>
    requires most { rest.field ≤ 5 }
    requires known { Excludes lives.now.rules.now target known.old }
    ensures found { MatchOption result (NeverLive lives.now.rules.now rest.live.bits rest.field target) (λ g. (length g ≡ 5) × LeastLive lives.now.rules.now rest.live.bits rest.field target (drop rest.field g)) }
    ensures known { Excludes lives.now.rules.now target known.new }
{
    if rest.field == FIELDS {
        return if lives.first(rest.live) == target {
            Some([0; FIELDS])
        } else {
            None
        };
    }
    if recall(known, rest).is_some() || lives.shadows(rest, target) {
        return None;
    }
    let top = top_of(rest.field);
    let mut low = 0u64;
    // The step is the length of the run that was cut, so no range counts it.
    while low <= top as u64 {
        let from = low as u32;
        let piece = lives.cut(rest, from, top);
        let next = Rest {
            field: rest.field + 1,
            live: piece.live,
        };
        if let Some(mut found) = least(lives, next, target, known) {
            found[rest.field] = from;
            return Some(found);
        }
        low = piece.end as u64 + 1;
    }
    // Here the memory is a set: it is the diagram's too, whose nodes it holds, so as to be there once.
    remember(known, Known { rest, node: 0 });
    None
}

// The least header whose first rule met is the target; with no target, the least that meets no rule. What
// is known before the call does not matter.
pub(crate) fn least_header(
    lives: &Lives,
    target: Option<usize>,
    known: &mut [Option<Known>],
) -> Option<[u32; FIELDS]>
    ensures { MatchOption result (Never lives.now.rules.now target) (λ g. LeastOfAll lives.now.rules.now target g) }
{
    forget(known);
    let all = Rest {
        field: 0,
        live: BitSet::FULL,
    };
    least(lives, all, target, known)
}
