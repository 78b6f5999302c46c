// The built-in weights of kind 1: the 256 constants with their rule, and the weight of any two guides.
#![tactic(auto)]

ghost use Rattle.std.specs.Prelude.{◌≡◌};
ghost use Rattle.spec.specs.Base.{distance};
ghost use Rattle.spec.specs.Frame.{built_in};
ghost use Rattle.frame_weights.specs.Weights.{built_in_list};

use spec::Guide;

// The whole part of 4096 / (16 + d), for d from 0 to 255.
const BUILT_IN: [u16; 256] = [
    256, 240, 227, 215, 204, 195, 186, 178, 170, 163, 157, 151, 146, 141, 136, 132, 128, 124, 120,
    117, 113, 110, 107, 105, 102, 99, 97, 95, 93, 91, 89, 87, 85, 83, 81, 80, 78, 77, 75, 74, 73,
    71, 70, 69, 68, 67, 66, 65, 64, 63, 62, 61, 60, 59, 58, 57, 56, 56, 55, 54, 53, 53, 52, 51, 51,
    50, 49, 49, 48, 48, 47, 47, 46, 46, 45, 45, 44, 44, 43, 43, 42, 42, 41, 41, 40, 40, 40, 39, 39,
    39, 38, 38, 37, 37, 37, 36, 36, 36, 35, 35, 35, 35, 34, 34, 34, 33, 33, 33, 33, 32, 32, 32, 32,
    31, 31, 31, 31, 30, 30, 30, 30, 29, 29, 29, 29, 29, 28, 28, 28, 28, 28, 27, 27, 27, 27, 27, 26,
    26, 26, 26, 26, 26, 25, 25, 25, 25, 25, 25, 24, 24, 24, 24, 24, 24, 24, 23, 23, 23, 23, 23, 23,
    23, 23, 22, 22, 22, 22, 22, 22, 22, 22, 21, 21, 21, 21, 21, 21, 21, 21, 21, 20, 20, 20, 20, 20,
    20, 20, 20, 20, 19, 19, 19, 19, 19, 19, 19, 19, 19, 19, 19, 18, 18, 18, 18, 18, 18, 18, 18, 18,
    18, 18, 18, 17, 17, 17, 17, 17, 17, 17, 17, 17, 17, 17, 17, 17, 16, 16, 16, 16, 16, 16, 16, 16,
    16, 16, 16, 16, 16, 16, 16, 16, 15, 15, 15, 15, 15, 15, 15, 15, 15, 15, 15, 15, 15, 15, 15,
];

// The constants: a call binds them once and lends them on.
pub fn constants() -> [u16; 256]
    ensures { result ≡ built_in_list }
{
    BUILT_IN
}

// How far two guides are apart.
pub fn apart(f: Guide, g: Guide) -> u16
    ensures { result ≡ distance f.0 g.0 }
{
    f.0.abs_diff(g.0)
}

// The built-in weight of two guides. Guides of a frame are less than 256 apart; the constants' rule goes on beyond.
#[tactic(auto, unfolding(spec::specs::Frame::built_in))]
pub fn built_in(f: Guide, g: Guide) -> u16
    ensures { result ≡ built_in f.0 g.0 }
{
    let d = apart(f, g) as usize;
    if d < BUILT_IN.len() {
        constants()[d]
    } else {
        (4096 / (16 + d)) as u16
    }
}
