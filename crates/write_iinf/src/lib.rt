// iinf: the entries of all items.

#![tactic(auto)]

pub mod gain_map;
pub mod infe;
pub mod picture;

ghost use Rattle.std.specs.Prelude.{◌≡◌, [], ◌∷◌, ◌+◌};
ghost use Rattle.octets.specs.Stores.{Room, Boxed};
ghost use Rattle.panel.specs.Form.{form_of};
ghost use Rattle.heif.specs.Iinf.{iinf, iinf_size};

use crate::gain_map::write_gain_infes;
use crate::infe::write_given_infe;
use crate::picture::write_picture_infes;
use octets::Output;
use panel::FileForm;
use plan_items::items::Items;
use write_ids::form::{write_count, write_item_box};

// iinf.
pub fn write_iinf(out: &mut Output, form: FileForm, size: u32, s: Items)
    requires room { Room out.old (8 + iinf_size (form_of form) s) }
    requires whole { size ≡ 8 + iinf_size (form_of form) s }
    ensures { Boxed out.old (8 + iinf_size (form_of form) s) (iinf (form_of form) s ∷ []) out.new }
{
    write_item_box(out, form, size, b"iinf", 0, 0);
    write_count(out, form, s.last_id());
    write_picture_infes(out, form, s.color());
    write_picture_infes(out, form, s.alpha());
    write_given_infe(out, form, b"Exif", s.exif());
    write_gain_infes(out, form, s);
}
