// The box hdlr.
ghost use Rattle.std.specs.Prelude.{[], ◌∷◌};
ghost use Rattle.octets.specs.Stores.{Room, Boxed};
ghost use Rattle.heif.specs.Hdlr.{hdlr, hdlr_size};

use octets::Output;

// hdlr: the handler of pictures.
pub fn write_hdlr(out: &mut Output)
    requires { Room out.old hdlr_size }
    ensures { Boxed out.old hdlr_size (hdlr ∷ []) out.new }
{
    out.write_fullbox(33, b"hdlr", 0, 0);
    out.w32(0);
    out.put(b"pict");
    out.w32(0);
    out.w32(0);
    out.w32(0);
    out.w8(0);
}
