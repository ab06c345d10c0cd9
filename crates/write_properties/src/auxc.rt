// The property auxC.
ghost use Rattle.std.specs.Prelude.{[], ◌∷◌, length};
ghost use Rattle.octets.specs.Numbers.{◌‖◌, be};
ghost use Rattle.octets.specs.Boxes.{full};
ghost use Rattle.octets.specs.Stores.{Boxed};
ghost use Rattle.write_properties.specs.Room.{BoxRoom};
ghost use Rattle.heif.specs.Auxc.{auxC_size};

use octets::{Output, size_of};

// auxC: the type of an auxiliary picture, with a zero byte behind it.
pub(crate) fn write_auxc(out: &mut Output, urn: &[u8])
    requires { BoxRoom out.old (auxC_size (length urn.now)) }
    ensures { Boxed out.old (auxC_size (length urn.now)) (full "auxC" 0 0 (urn.now ‖ be 1 0) ∷ []) out.new }
{
    out.write_fullbox(size_of(13, urn.len()), b"auxC", 0, 0);
    out.put(urn);
    out.w8(0);
}
