// The gain map's entries in iloc.
ghost use Rattle.std.specs.Prelude.{cond, [], ◌∷◌, ◌+◌, ◌*◌, ◌≤◌};
ghost use Rattle.octets.specs.Stores.{Room, Wrote};
ghost use Rattle.panel.specs.Form.{form_of};
ghost use Rattle.panel.specs.Parts.{given};
ghost use Rattle.heif.specs.Items.{gain_id};
ghost use Rattle.heif.specs.Iloc.{entry_size, gain_entries_size};
ghost use Rattle.write_iloc.specs.Spans.{entries};
ghost use Rattle.write_iloc.specs.Locations.{gain_entries};

use crate::location::{Batch, Location, Method, write_file_locations, write_given_location};
use octets::Output;
use panel::{FileForm, Ids};
use plan_items::items::Items;
use plan_items::payloads::PayloadLengths;

// Where the gain map's payloads begin in the file, back to back, and how many bytes they have.
#[derive(Clone, Copy)]
pub(crate) struct GainPayloads {
    pub offset: u32,
    pub lengths: PayloadLengths,
    ghost end_fits: { offset + lengths.sample + lengths.xmp ≤ 4294967295 },
}

// The entries of the gain image and of its XMP, where there is a gain map.
fn write_image_locations(out: &mut Output, form: FileForm, s: Items, gain: GainPayloads)
    requires { Room out.old (cond s.gain (2 * entry_size (form_of form)) 0) }
    ensures { Wrote out.old (cond s.gain (2 * entry_size (form_of form)) 0) (entries (form_of form) (gain_id s) gain.offset (given s.gain (gain.lengths.sample ∷ gain.lengths.xmp ∷ []))) out.new }
{
    if s.has_gain() {
        let ids = Ids {
            first: s.gain_id(),
            count: 2,
        };
        let batch = Batch {
            ids,
            offset: gain.offset,
            lengths: &[gain.lengths.sample, gain.lengths.xmp],
        };
        write_file_locations(out, form, batch);
    }
}

// The gain map's entries.
pub(crate) fn write_gain_locations(out: &mut Output, form: FileForm, s: Items, gain: GainPayloads)
    requires { Room out.old (gain_entries_size (form_of form) s) }
    ensures { Wrote out.old (gain_entries_size (form_of form) s) (gain_entries (form_of form) s gain.offset gain.lengths) out.new }
{
    write_image_locations(out, form, s, gain);
    let tone = Location {
        id: s.tmap_id(),
        method: Method::File,
        offset: gain.offset + gain.lengths.sample + gain.lengths.xmp,
        size: gain.lengths.tmap,
    };
    write_given_location(out, form, s.has_tone().then_some(tone));
}
