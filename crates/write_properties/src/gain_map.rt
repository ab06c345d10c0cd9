// The gain map's properties in ipco.
ghost use Rattle.std.specs.Prelude.{◌≡◌, max};
ghost use Rattle.octets.specs.Stores.{Boxed};
ghost use Rattle.write_properties.specs.Room.{BoxRoom};
ghost use Rattle.panel.specs.Types.{bits};
ghost use Rattle.panel.specs.Of.{gain_of, panel_of};
ghost use Rattle.heif.specs.Ispe.{ispe, tone_ispe};
ghost use Rattle.heif.specs.Pixi.{pixi};
ghost use Rattle.heif.specs.Ipco.{image_slots, tone_slots, gain_slots, held, image_properties_size, tone_properties_size, gain_properties_size};

use crate::auxc::write_auxc;
use crate::colr::{write_alternate_colr, write_colr_nclx};
use crate::hvcc::write_hvcc;
use crate::ispe::write_ispe;
use crate::pixi::write_pixi;
use octets::Output;
use panel::Panel;
use panel::gain_map::EncodedGainMap;

// The picture that a tone map gives: its sides, and the bits of each channel.
#[derive(Clone, Copy)]
struct TonePicture {
    w: u32,
    h: u32,
    bits: u8,
}

// As large as the turned grid, and of at least 10 bits.
impl From<&Panel<'_>> for TonePicture {
    ghost from_gives = { λ panel t. record { size : ispe t.w t.h ≡ tone_ispe panel.now.dims panel.now.metadata.orientation; bits : t.bits ≡ max (bits panel.now.bit_depth) 10 } };

    fn from(panel: &Panel<'_>) -> TonePicture {
        let dims = panel.dims;
        let is_turned = panel.metadata.orientation.irot_steps() % 2 == 1;
        let (w, h) = if is_turned {
            (dims.full_h, dims.full_w)
        } else {
            (dims.full_w, dims.full_h)
        };
        TonePicture {
            w,
            h,
            bits: panel.bit_depth.bits().max(10),
        }
    }
}

// hvcC, ispe, pixi, auxC and colr of the gain image.
fn write_image_properties(out: &mut Output, g: &EncodedGainMap)
    requires { let m = gain_of g.now in BoxRoom out.old (image_properties_size m.hvcc) }
    ensures { let m = gain_of g.now in Boxed out.old (image_properties_size m.hvcc) (held (image_slots m.hvcc m.width m.height m.depth m.cicp)) out.new }
{
    write_hvcc(out, g.hvcc);
    write_ispe(out, g.width, g.height);
    write_pixi::<1>(out, g.bit_depth.bits());
    write_auxc(out, b"urn:com:apple:photo:2020:aux:hdrgainmap");
    write_colr_nclx(out, g.cicp);
}

// ispe, pixi and the alternate colour of the tone map, where there is one.
fn write_tone_properties(out: &mut Output, g: &EncodedGainMap, picture: TonePicture)
    requires { let m = gain_of g.now in BoxRoom out.old (tone_properties_size m.tone m.alternate) }
    ensures { let m = gain_of g.now in Boxed out.old (tone_properties_size m.tone m.alternate) (held (tone_slots (ispe picture.w picture.h) (pixi 3 picture.bits) m.tone m.alternate)) out.new }
{
    if g.tmap.is_some() {
        write_ispe(out, picture.w, picture.h);
        write_pixi::<3>(out, picture.bits);
        write_alternate_colr(out, &g.alternate_color);
    }
}

// The properties of the gain map, where there is one, and of its tone map.
#[tactic(auto, unfolding(panel::specs::Of::panel_of))]
pub(crate) fn write_ipco(out: &mut Output, panel: &Panel)
    requires { let p = panel_of panel.now in BoxRoom out.old (gain_properties_size p.gain) }
    ensures { let p = panel_of panel.now in Boxed out.old (gain_properties_size p.gain) (held (gain_slots (tone_ispe p.dims p.metadata.orientation) (pixi 3 (max (bits p.depth) 10)) p.gain)) out.new }
{
    if let Some(g) = &panel.gain_map {
        write_image_properties(out, g);
        write_tone_properties(out, g, TonePicture::from(panel));
    }
}
