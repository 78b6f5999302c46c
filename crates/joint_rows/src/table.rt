// A weight of a frame's table, built-in or its own. An inner layer: the caller has made sure that the file is accepted.
ghost use Rattle.std.specs.Prelude.{◌≡◌, ◌<◌, ◌≤◌};
ghost use Rattle.spec.specs.Frame.{table, heaviest, frame_of};
ghost use Rattle.spec.specs.Checks.{Planned};
ghost use Rattle.frame_weights.specs.Weights.{built_in_list};

use big_endian::be16;
use spec::{Guide, Plan};

// What a pixel of guide g weighs in a window whose centre has guide f, at most the largest weight. The caller has bound the constants once.
pub fn weight_at(built: &[u16; 256], file: &[u8], plan: Plan, f: Guide, g: Guide) -> u16
    requires { (built.now ≡ built_in_list) × (Planned file.now plan) × (f.0 < plan.guides) × (g.0 < plan.guides) }
    ensures { (result ≡ table (frame_of file.now) f.0 g.0) × (result ≤ heaviest) }
{
    if plan.weights == 0 {
        built[f.0.abs_diff(g.0) as usize]
    } else {
        let k = f.0 as usize * plan.guides + g.0 as usize;
        be16(file, plan.table + 2 * k)
    }
}
