// The property ispe.
ghost use Rattle.std.specs.Prelude.{[], ◌∷◌};
ghost use Rattle.octets.specs.Stores.{Room, Boxed};
ghost use Rattle.heif.specs.Ispe.{ispe, ispe_size};

use octets::Output;

// ispe: a picture's width and height.
pub(crate) fn write_ispe(out: &mut Output, w: u32, h: u32)
    requires { Room out.old ispe_size }
    ensures { Boxed out.old ispe_size (ispe w h ∷ []) out.new }
{
    out.write_fullbox(20, b"ispe", 0, 0);
    out.w32(w);
    out.w32(h);
}
