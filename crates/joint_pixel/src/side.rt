// A cell of the balance box with one pixel more or less: 1 up where the pixel's level is at the cut point or below it, else 1 down.
ghost use Rattle.std.specs.Prelude.{◌≡◌, ◌≤◌, nat_abs};
ghost use Rattle.pixels.specs.Additive.{changedℤ};
ghost use Rattle.joint_pixel.specs.Side.{side};

use spec::Level;

// A cell of the box, with a pixel of the level that enters or leaves. A leaving one goes the other way.
pub fn side_changed(x: i16, level: Level, cut: Level, enters: bool) -> i16
    requires { nat_abs x ≤ 32766 }
    ensures { result ≡ changedℤ enters x (side cut.0 level.0) }
{
    if (level <= cut) == enters {
        x + 1
    } else {
        x - 1
    }
}
