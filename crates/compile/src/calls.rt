// From a rule list to its chain.
ghost use Rattle.std.specs.Prelude.{◌≡◌, ◌≤◌, length, IfErr, None, MatchOption, MatchResult};
ghost use Rattle.questions.specs.Asking.{refusal};
ghost use Rattle.policy.specs.Shapes.{Coded};
ghost use Rattle.compile.specs.Gaps.{Never};
ghost use Rattle.compile.specs.Places.{Bare};
ghost use Rattle.compile.specs.Compiling.{compile_number, compile_asks, Fits, Made, CompileNames};

use crate::build::reduce;
use crate::chains::chain_rows;
use crate::gaps::least_header;
use crate::lives::Lives;
use crate::places::Place;
use crate::refusals::CompileRefusal;
use policy::fields::Header;
use policy::kinds::Kind;
use policy::plain::check_list;
use policy::rules::Rule;

// Makes the diagram and the chain of a list without a gap, and tells how many rows it has; none, where they do
// not fit.
fn make_chain(lives: &Lives, side: u8, place: &mut Place) -> Option<usize>
    requires { Never lives.now.rules.now None }
    ensures { MatchOption result (Fits lives.now.rules.now → ⊥) (λ rows. Made lives.now.rules.now side place.new rows) }
{
    reduce(lives, &mut place.levels, &mut place.known)?;
    chain_rows(&place.levels, side & 3, &mut place.rows, &mut place.lengths)?;
    Some(place.rows.len())
}

// Compiles a list: the place then holds its reduced diagram, and the rows of its chain for a side (the last two
// bits of the number), of which it tells how many there are. A refused list leaves an empty diagram.
pub fn compile<K: Kind>(
    rules: &[Rule],
    side: u8,
    place: &mut Place,
) -> Result<usize, CompileRefusal>
    ensures asked { compile_asks (Coded K.Kind.of_code) rules.now (refusal compile_number result) }
    ensures made { MatchResult result (λ rows. Made rules.now side place.new rows) (λ _. Bare place.new) }
    ensures names { IfErr result (CompileNames (Coded K.Kind.of_code) rules.now) }
{
    place.clear();
    check_list::<K>(rules)?;
    let lives = Lives::new(rules);
    if let Some(numbers) = least_header(&lives, None, &mut place.known) {
        return Err(CompileRefusal::Gap(Header { numbers }));
    }
    match make_chain(&lives, side, place) {
        Some(rows) => Ok(rows),
        None => {
            place.clear();
            Err(CompileRefusal::TooLarge)
        }
    }
}
