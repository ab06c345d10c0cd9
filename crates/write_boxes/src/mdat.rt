// mdat: the payloads, one after the other.
ghost use Rattle.std.specs.Prelude.{◌≡◌, ◌+◌, length, Some, option_copied, option_map, option_to_list};
ghost use mathlib.Core.List.{[], ◌∷◌, flatten};
ghost use Rattle.octets.specs.Boxes.{box};
ghost use Rattle.octets.specs.Stores.{Room, Wrote, Boxed};
ghost use Rattle.panel.specs.Of.{gain_of, panel_of};
ghost use Rattle.panel.specs.Parts.{long};
ghost use Rattle.heif.specs.Mdat.{exif_data_block, exif_payload, gain_payloads, exif_size, gain_data_size, mdat_size};
ghost use Rattle.write_boxes.specs.Mdat.{payload_bytes};

use octets::Output;
use panel::Panel;
use panel::gain_map::EncodedGainMap;
use plan_items::exif::tiff_header_offset;

// The payload of an Exif item: the offset of the TIFF header in the Exif bytes, then these.
fn write_exif_data_block(out: &mut Output, exif: &[u8])
    requires { Room out.old (exif_size (Some exif.now)) }
    ensures { Wrote out.old (exif_size (Some exif.now)) (exif_data_block exif.now) out.new }
{
    out.w32(tiff_header_offset(exif));
    out.put(exif);
}

// The Exif payload, where it is present.
fn write_exif_payload(out: &mut Output, exif: Option<&[u8]>)
    requires { Room out.old (exif_size (option_copied exif)) }
    ensures { Wrote out.old (exif_size (option_copied exif.entry)) (flatten (exif_payload (option_copied exif.entry))) out.new }
{
    if let Some(bytes) = exif {
        write_exif_data_block(out, bytes);
    }
}

// The bytes of a part, where it is present. Of the Exif something stands before the bytes, so that is another function.
fn put_part(out: &mut Output, part: Option<&[u8]>)
    requires { Room out.old (long (option_copied part)) }
    ensures { Wrote out.old (long (option_copied part.entry)) (flatten (option_to_list (option_copied part.entry))) out.new }
{
    if let Some(bytes) = part {
        out.put(bytes);
    }
}

// The sample, the XMP and the tone map of a gain map, where there is one.
fn write_gain_payloads(out: &mut Output, gain: &Option<EncodedGainMap>)
    requires { Room out.old (gain_data_size (option_map gain_of gain.now)) }
    ensures { Wrote out.old (gain_data_size (option_map gain_of gain.now)) (flatten (gain_payloads (option_map gain_of gain.now))) out.new }
{
    if let Some(g) = gain {
        out.put(g.sample);
        out.put(g.xmp);
        put_part(out, g.tmap);
    }
}

// mdat.
#[tactic(auto, unfolding(panel::specs::Of::panel_of))]
pub fn write_mdat(out: &mut Output, size: u32, panel: &Panel)
    requires room { Room out.old (8 + mdat_size (panel_of panel.now)) }
    requires whole { size ≡ 8 + mdat_size (panel_of panel.now) }
    ensures { Boxed out.old (8 + mdat_size (panel_of panel.now)) (box "mdat" (payload_bytes (panel_of panel.now)) ∷ []) out.new }
{
    out.write_box(size, b"mdat");
    out.put(panel.color.samples.bytes);
    out.put(panel.alpha.samples.bytes);
    write_exif_payload(out, panel.metadata.exif);
    write_gain_payloads(out, &panel.gain_map);
}
