// The property irot.
ghost use Rattle.octets.specs.Boxes.{optional};
ghost use Rattle.octets.specs.Stores.{Room, Boxed};
ghost use Rattle.heif.specs.Irot.{irot_payload, irot_size};

use octets::Output;

// irot, where there is a turn.
pub(crate) fn write_irot(out: &mut Output, steps: u8)
    requires { Room out.old (irot_size steps) }
    ensures { Boxed out.old (irot_size steps) (optional "irot" (irot_payload steps)) out.new }
{
    if steps > 0 {
        out.write_box(9, b"irot");
        out.w8(steps);
    }
}
