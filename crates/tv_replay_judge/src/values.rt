//! Equal values.

ghost use Rattle.std.specs.Prelude.{◌≡◌, ◌↔◌, IsTrue};

use tv_kleene::K3;

pub(crate) fn are_equal(x: K3, y: K3) -> bool
    ensures { IsTrue result ↔ (x ≡ y) }
{
    x == y
}
