// The property imir.
ghost use Rattle.octets.specs.Boxes.{optional};
ghost use Rattle.octets.specs.Stores.{Room, Boxed};
ghost use Rattle.heif.specs.Imir.{imir_payload, imir_size};

use octets::Output;

// imir, where there is a mirror.
pub(crate) fn write_imir(out: &mut Output, axis: Option<bool>)
    requires { Room out.old (imir_size axis) }
    ensures { Boxed out.old (imir_size axis) (optional "imir" (imir_payload axis)) out.new }
{
    if let Some(axis) = axis {
        out.write_box(9, b"imir");
        out.w8(u8::from(axis));
    }
}
