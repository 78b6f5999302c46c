// Check 11: how much of each store a way uses, and whether what is lent is enough.
#![tactic(auto)]

ghost use Rattle.std.specs.Prelude.{◌≡◌};
ghost use Rattle.spec.specs.Calls.{way_of, joint_room, numbers_room, room_of, lacks, short};
ghost use Rattle.spec.specs.Checks.{SettingsLimits};
ghost use Rattle.spec.specs.Frame.{settings_in};

use spec::{Plan, Room, Way};

const BLOCK: usize = spec::BLOCK as usize;

// The way that a number names, where check 8 lets it pass.
#[tactic(auto, unfolding(spec::specs::Calls::way_of))]
pub fn way_of(way: u32) -> Way
    ensures { result ≡ way_of way }
{
    match way {
        1 => Way::Joint,
        2 => Way::Columns,
        3 => Way::Chain,
        _ => Way::Coarse,
    }
}

// Ways 1 and 4: a joint store, and so many numbers of a summary.
fn joint_room(plan: Plan, blocks: usize) -> Room
    requires { SettingsLimits (settings_in plan) }
    ensures { result ≡ joint_room (settings_in plan) blocks }
{
    Room {
        counts: plan.levels * plan.guides,
        words: plan.levels * plan.guides.div_ceil(64),
        numbers: 0,
        summary: blocks,
    }
}

// Ways 2 and 3.
fn numbers_room(n: usize) -> Room
    ensures { result ≡ numbers_room n }
{
    Room {
        counts: 0,
        words: 0,
        numbers: n,
        summary: 0,
    }
}

// How much of each store a way uses.
#[tactic(auto, unfolding(spec::specs::Calls::room_of))]
pub fn needed(way: Way, plan: Plan) -> Room
    requires { SettingsLimits (settings_in plan) }
    ensures { result ≡ room_of way (settings_in plan) }
{
    let l = plan.levels;
    let columns = 2 * (plan.width * l) + 2 * l;
    let side = 2 * plan.radius + 1;
    let nodes = 1 + 4 * (side * side);
    let blocks = l.div_ceil(BLOCK);
    match way {
        Way::Joint => joint_room(plan, 0),
        Way::Columns => numbers_room(columns),
        Way::Chain => numbers_room(nodes),
        Way::Coarse => joint_room(plan, blocks),
    }
}

#[tactic(auto, unfolding(spec::specs::Calls::lacks))]
fn lacking(need: Room, have: Room) -> bool
    ensures { result ≡ lacks need have }
{
    have.counts < need.counts
        || have.words < need.words
        || have.numbers < need.numbers
        || have.summary < need.summary
}

// Check 11: a store of the way, or an output that is to take n numbers, is too short.
#[tactic(auto, unfolding(spec::specs::Calls::short))]
pub fn short(plan: Plan, way: u32, have: Room, out: usize, n: usize) -> bool
    requires { SettingsLimits (settings_in plan) }
    ensures { result ≡ short (settings_in plan) way have out n }
{
    lacking(needed(way_of(way), plan), have) || out < n
}
