// Document 02, ask 9: whose turn it is where up to eight files share the grants of control periods. Numbers alone: no file is looked at.
#![tactic(auto)]

ghost use Rattle.std.specs.Prelude.{◌≡◌, ◌≤◌, ◌<◌, MatchOption};
ghost use Rattle.spec.specs.Schedule as definitions;
ghost use Rattle.schedule.specs.Tallies.{SizesFit, TalliesCounted};

use spec::Round;

// So many files take part; those that a call lacks have no pixels.
const FILES: usize = 8;

// How many files are passed over because they are finished, or none where all are.
pub fn passed_over(sizes: [usize; FILES], round: Round) -> Option<usize>
    requires { round.next ≤ 8 }
    ensures { MatchOption result (definitions.passed_over sizes round ≡ 8) (λ j. (j < 8) × (j ≡ definitions.passed_over sizes round)) }
{
    for j in 0..FILES {
        let k = (round.next + j) % FILES;
        if round.tallies[k] < sizes[k] {
            return Some(j);
        }
    }
    None
}

// One grant: nothing where all files are finished.
pub fn grant(sizes: [usize; FILES], round: Round) -> Round
    requires { (SizesFit sizes) × (TalliesCounted sizes round) }
    ensures { result ≡ definitions.grant sizes round }
{
    let Some(j) = passed_over(sizes, round) else {
        return round;
    };
    let k = (round.next + j) % FILES;
    let mut tallies = round.tallies;
    tallies[k] += 1;
    Round {
        next: k + 1,
        granted: round.granted + 1,
        tallies,
    }
}

// The grants of a period with this limit. Once one grants nothing, all files are finished, and so does each after it.
pub fn period(sizes: [usize; FILES], limit: u32, from: Round) -> Round
    requires { (SizesFit sizes) × (TalliesCounted sizes from) }
    ensures { result ≡ definitions.grants sizes limit from }
{
    let mut round = from;
    for _ in 0..limit {
        let next = grant(sizes, round);
        if next.granted == round.granted {
            return round;
        }
        round = next;
    }
    round
}

// The grants of all periods, from the start.
pub fn run(sizes: [usize; FILES], limits: &[u32]) -> Round
    requires { SizesFit sizes }
    ensures { result ≡ definitions.periods sizes limits.now definitions.opening }
{
    let mut round = Round {
        next: 0,
        granted: 0,
        tallies: [0; FILES],
    };
    for limit in limits {
        round = period(sizes, *limit, round);
    }
    round
}
