// The reduced diagram of a rule list.
ghost use Rattle.std.specs.Prelude.{◌≡◌, MatchOption};
ghost use Rattle.policy.specs.Fields.{widths};
ghost use Rattle.policy.specs.Rules.{decide};
ghost use Rattle.diagram.specs.States.{Failed};
ghost use Rattle.diagram.specs.Diagrams.{Reduced};
ghost use Rattle.compile.specs.Levels.{diagram_of};
ghost use Rattle.compile.specs.Builds.{Ready, Finished};

use crate::caches::{Known, forget, recall, remember};
use crate::levels::{Draft, Level, add_run};
use crate::lives::{Lives, Rest, top_of};
use crate::places::clear_levels;
use crate::sets::BitSet;
use policy::fields::FIELDS;

// The node of the remainder after the header's first fields, with all that it leads to; for a whole
// header, its code. None where the diagram is too large or a header meets no rule.
fn build(
    lives: &Lives,
    header: [u32; FIELDS],
    rest: Rest,
    levels: &mut [Level; FIELDS],
    known: &mut [Option<Known>],
) -> Option<u16>
    requires { Ready lives.now.rules.now header rest.live.bits rest.field levels.old known.old }
    ensures { MatchOption result (Failed widths (decide lives.now.rules.now)) (λ k. Finished lives.now.rules.now header rest.field levels.old levels.new known.new k) }
{
    if rest.field == FIELDS {
        return lives.first_code(rest.live);
    }
    if let Some(k) = recall(known, rest) {
        return Some(k);
    }
    let top = top_of(rest.field);
    let mut draft = Draft::new();
    let mut low = 0u64;
    // The step is the length of the run that was cut, so no range counts it.
    while low <= top as u64 {
        let from = low as u32;
        let piece = lives.cut(rest, from, top);
        let mut longer = header;
        longer[rest.field] = from;
        let next = Rest {
            field: rest.field + 1,
            live: piece.live,
        };
        let to = build(lives, longer, next, levels, known)?;
        add_run(&mut draft, piece.end, to)?;
        low = piece.end as u64 + 1;
    }
    let node = levels[rest.field].share(draft.as_slice())?;
    remember(known, Known { rest, node });
    Some(node)
}

// The reduced diagram of the rules, in the levels; none, where it is too large or a header meets no rule.
// What is known before the call does not matter.
pub(crate) fn reduce(
    lives: &Lives,
    levels: &mut [Level; FIELDS],
    known: &mut [Option<Known>],
) -> Option<()>
    ensures { MatchOption result (Failed widths (decide lives.now.rules.now)) (λ _. Reduced widths (decide lives.now.rules.now) (diagram_of levels.new)) }
{
    clear_levels(levels);
    forget(known);
    let all = Rest {
        field: 0,
        live: BitSet::FULL,
    };
    build(lives, [0; FIELDS], all, levels, known)?;
    Some(())
}
