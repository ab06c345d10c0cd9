// The property clli.
ghost use Rattle.octets.specs.Boxes.{optional};
ghost use Rattle.octets.specs.Stores.{Room, Boxed};
ghost use Rattle.heif.specs.Clli.{clli_payload, clli_size};

use octets::Output;
use panel::metadata::ContentLightLevel;

// clli, where there is a light level.
pub(crate) fn write_clli(out: &mut Output, light: Option<ContentLightLevel>)
    requires { Room out.old (clli_size light) }
    ensures { Boxed out.old (clli_size light) (optional "clli" (clli_payload light)) out.new }
{
    if let Some(level) = light {
        out.write_box(12, b"clli");
        out.w16(level.max_content_light_level);
        out.w16(level.max_pic_average_light_level);
    }
}
