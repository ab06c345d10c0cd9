// The property hvcC.
ghost use Rattle.std.specs.Prelude.{[], ◌∷◌};
ghost use Rattle.octets.specs.Stores.{Boxed};
ghost use Rattle.write_properties.specs.Room.{BoxRoom};
ghost use Rattle.heif.specs.Hvcc.{hvcC, hvcC_size};

use octets::{Output, size_of};

// hvcC: a decoder configuration record.
pub(crate) fn write_hvcc(out: &mut Output, hvcc: &[u8])
    requires { BoxRoom out.old (hvcC_size hvcc.now) }
    ensures { Boxed out.old (hvcC_size hvcc.now) (hvcC hvcc.now ∷ []) out.new }
{
    out.write_box(size_of(8, hvcc.len()), b"hvcC");
    out.put(hvcc);
}
