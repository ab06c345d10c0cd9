// iloc: where each item's payload lies.

#![tactic(auto)]

pub mod gain_map;
pub mod location;

ghost use Rattle.std.specs.Prelude.{◌≡◌, true, cond, [], ◌∷◌, ◌+◌, ◌*◌, ◌≤◌, length};
ghost use Rattle.octets.specs.Numbers.{◌‖◌, total};
ghost use Rattle.octets.specs.Stores.{Room, Wrote, Boxed};
ghost use Rattle.panel.specs.Form.{form_of};
ghost use Rattle.heif.specs.Iloc.{entry, iloc, iloc_size, entry_size, gain_entries_size};
ghost use Rattle.write_iloc.specs.Spans.{entries};
ghost use Rattle.write_iloc.specs.Locations.{location_of, other_entries, placed};

use crate::gain_map::{GainPayloads, write_gain_locations};
use crate::location::{
    Batch, Location, Method, write_file_locations, write_given_location, write_location,
};
use octets::Output;
use panel::FileForm;
use panel::when::when;
use plan_items::items::Items;
use plan_items::payloads::Payloads;
use write_ids::form::{write_count, write_item_box};

// The entries of a picture: those of its tiles and its grid's.
fn write_picture_locations(out: &mut Output, form: FileForm, tiles: Batch, grid: Location)
    requires { Room out.old (entry_size (form_of form) * length tiles.lengths.now + entry_size (form_of form)) }
    ensures { let b = tiles.entry in Wrote out.old (entry_size (form_of form) * length b.lengths.now + entry_size (form_of form)) (entries (form_of form) b.ids.first.0 b.offset b.lengths.now ‖ entry (form_of form) (location_of grid)) out.new }
{
    write_file_locations(out, form, tiles);
    write_location(out, form, grid);
}

// The entries of what lies behind the alpha samples: the Exif's and the gain map's.
fn write_other_locations(out: &mut Output, form: FileForm, s: Items, payloads: Payloads)
    requires room { Room out.old (cond s.exif (entry_size (form_of form)) 0 + gain_entries_size (form_of form) s) }
    requires end_fits { payloads.other + payloads.exif + payloads.gain.sample + payloads.gain.xmp ≤ 4294967295 }
    ensures { Wrote out.old (cond s.exif (entry_size (form_of form)) 0 + gain_entries_size (form_of form) s) (other_entries (form_of form) s payloads) out.new }
{
    let exif = Location {
        id: s.exif_id(),
        method: Method::File,
        offset: payloads.other,
        size: payloads.exif,
    };
    write_given_location(out, form, s.has_exif().then_some(exif));
    let gain = GainPayloads {
        offset: payloads.other + when(s.has_exif(), payloads.exif),
        lengths: payloads.gain,
    };
    write_gain_locations(out, form, s, gain);
}

// iloc, from the lengths of the colour samples and of the alpha samples. The grids' descriptors lie in idat, the colour grid's first. A
// struct for its parameters would be made in one place and taken apart in one.
pub fn write_iloc(
    out: &mut Output,
    form: FileForm,
    size: u32,
    s: Items,
    payloads: Payloads,
    color: &[u32],
    alpha: &[u32],
)
    requires room { Room out.old (8 + iloc_size (form_of form) s) }
    requires whole { size ≡ 8 + iloc_size (form_of form) s }
    requires toned { s.tone ≡ true → s.gain ≡ true }
    requires color_tiles { length color.now ≡ s.tiles }
    requires alpha_tiles { length alpha.now ≡ s.tiles }
    requires color_end_fits { payloads.color + total color.now ≤ 4294967295 }
    requires alpha_end_fits { payloads.alpha + total alpha.now ≤ 4294967295 }
    requires other_end_fits { payloads.other + payloads.exif + payloads.gain.sample + payloads.gain.xmp ≤ 4294967295 }
    ensures { Boxed out.old (8 + iloc_size (form_of form) s) (iloc (form_of form) (placed s payloads color.now alpha.now) ∷ []) out.new }
{
    let color_ids = s.color();
    let alpha_ids = s.alpha();
    let color_tiles = Batch {
        ids: color_ids.tiles,
        offset: payloads.color,
        lengths: color,
    };
    let alpha_tiles = Batch {
        ids: alpha_ids.tiles,
        offset: payloads.alpha,
        lengths: alpha,
    };
    let color_grid = Location {
        id: color_ids.grid,
        method: Method::Idat,
        offset: 0,
        size: payloads.descriptor,
    };
    let alpha_grid = Location {
        id: alpha_ids.grid,
        method: Method::Idat,
        offset: payloads.descriptor,
        size: payloads.descriptor,
    };
    write_item_box(out, form, size, b"iloc", 1, 0);
    // Offsets and lengths of 4 bytes, no base offset and no index.
    out.w16(0x4400);
    write_count(out, form, s.last_id());
    write_picture_locations(out, form, color_tiles, color_grid);
    write_picture_locations(out, form, alpha_tiles, alpha_grid);
    write_other_locations(out, form, s, payloads);
}
