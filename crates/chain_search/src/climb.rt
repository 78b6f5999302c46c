// The median along the list. In kind 2 the weight of any pixels is linear in their number and their guide sum, so two running sums are all that a
// climb carries; weights may be negative, so it begins at the first node each time.
ghost use Rattle.std.specs.Prelude.{◌≡◌, ℕ, ◌≤◌, pos, ◌<ℤ◌};
ghost use Rattle.spec.specs.Base.{first};
ghost use Rattle.window_weights.specs.Coefficients.{CoefficientsSmall};
ghost use Rattle.chain_search.specs.Climb.{reaches_at, Climbs};

use chain_nodes::place;
use spec::Level;
use window_weights::coefficients::{Coefficients, reached};

// The first level at which the weight of the levels up to it reaches half of the window's, of however many levels the list is. Some level does:
// where none before the last node does, the last node's level is the answer.
pub fn climb(nodes: &[u32], coefficients: Coefficients) -> Level
    requires by_index { (l : ℕ) × (l ≤ 1024) × Climbs l coefficients nodes.now }
    requires coefficients_small { (CoefficientsSmall coefficients) × (pos 0 <ℤ coefficients.total) }
    ensures { (l : ℕ) → l ≤ 1024 → (a : Climbs l coefficients nodes.now)
        → result.0 ≡ first (reaches_at a.cnt a.sm coefficients) l }
{
    let mut count = 0;
    let mut sum = 0;
    let mut at = place(nodes[0]);
    // no `for`, since the next node is read from the node
    while nodes[at] != 0 {
        count += nodes[at - 2] as usize;
        sum += nodes[at - 1] as usize;
        if reached(coefficients, count, sum) {
            break;
        }
        at = place(nodes[at]);
    }
    Level(nodes[at - 3] as u16)
}
