// iref: the references of all items.

#![tactic(auto)]

pub mod gain_map;
pub mod reference;

ghost use Rattle.std.specs.Prelude.{◌≡◌, [], ◌∷◌, ◌+◌, ◌≤◌};
ghost use Rattle.octets.specs.Stores.{Room, Boxed};
ghost use Rattle.panel.specs.Form.{form_of};
ghost use Rattle.heif.specs.Iref.{iref, iref_size};

use crate::gain_map::write_gain_refs;
use crate::reference::{write_given_ref, write_ref, write_tile_refs};
use octets::Output;
use panel::FileForm;
use plan_items::items::Items;
use write_ids::form::write_item_box;

// iref: each grid derives from its tiles, the alpha grid is auxiliary to the colour grid, and the Exif, where it is present, describes the
// colour grid; then the references of the gain map.
pub fn write_iref(out: &mut Output, form: FileForm, size: u32, s: Items)
    requires room { Room out.old (8 + iref_size (form_of form) s) }
    requires whole { size ≡ 8 + iref_size (form_of form) s }
    requires counted { s.tiles ≤ 65535 }
    ensures { Boxed out.old (8 + iref_size (form_of form) s) (iref (form_of form) s ∷ []) out.new }
{
    let color = s.color();
    let alpha = s.alpha();
    write_item_box(out, form, size, b"iref", 0, 0);
    write_tile_refs(out, form, color);
    write_tile_refs(out, form, alpha);
    write_ref(out, form, b"auxl", alpha.grid, &[color.grid]);
    write_given_ref(out, form, b"cdsc", s.exif(), &[color.grid]);
    write_gain_refs(out, form, s);
}
