//! Changes are made in a structure.

ghost use Rattle.std.specs.Prelude.{All, length};
ghost use Rattle.tv_coerce.specs.Changes.{IsPlace};
ghost use Rattle.tv_coerce.specs.Sharpened.{IsSharpened};

use crate::lower::lower;
use crate::noted::Ask;
use tv_struct::Structure;

/// Makes each change that is asked for, where it is still unknown what stands there.
pub(crate) fn sharpen(s: &mut Structure, asks: &[Ask])
    requires { All (λ ask. IsPlace s.old ask.change) asks.now }
    ensures { IsSharpened asks.now (length asks.now) s.old s.new }
{
    let _ = s.size();
    for ask in asks {
        lower(s, ask.change);
    }
}
