// The references of iref.
ghost use Rattle.std.specs.Prelude.{cond, [], ◌∷◌, ◌+◌, ◌≤◌, length, is_some, option_map, option_to_list};
ghost use Rattle.octets.specs.Numbers.{◌‖◌, be};
ghost use Rattle.octets.specs.Stores.{Room, Wrote, Boxed};
ghost use Rattle.panel.specs.Form.{form_of};
ghost use Rattle.heif.specs.Items.{ids_from};
ghost use Rattle.heif.specs.Iref.{reference, reference_size};
ghost use Rattle.write_iref.specs.References.{numbers, reference_of};

use octets::Output;
use panel::{FileForm, WideItemId};
use plan_items::form::ids_bytes;
use plan_items::items::PictureIds;
use write_ids::{write_id, write_ids};

// What stands in a reference to n items before their ids: its size and its type, the item that refers to them, and n.
fn write_ref_head(out: &mut Output, form: FileForm, kind: &[u8; 4], from: WideItemId, n: u16)
    requires { Room out.old (10 + (form_of form).id) }
    ensures { Wrote out.old (10 + (form_of form).id) (be 4 (reference_size (form_of form) n) ‖ kind.now ‖ be (form_of form).id from.0 ‖ be 2 n) out.new }
{
    out.write_box(10 + ids_bytes(form, u32::from(n) + 1), kind);
    write_id(out, form, from);
    out.w16(n);
}

// From one item to some others.
pub(crate) fn write_ref(
    out: &mut Output,
    form: FileForm,
    kind: &[u8; 4],
    from: WideItemId,
    to: &[WideItemId],
)
    requires room { Room out.old (reference_size (form_of form) (length to.now)) }
    requires counted { length to.now ≤ 65535 }
    ensures { Boxed out.old (reference_size (form_of form) (length to.now)) (reference_of (form_of form) kind.now from.0 (numbers to.now) ∷ []) out.new }
{
    write_ref_head(out, form, kind, from, to.len() as u16);
    for id in to {
        write_id(out, form, *id);
    }
}

// The same, where there is an item that refers to them.
pub(crate) fn write_given_ref(
    out: &mut Output,
    form: FileForm,
    kind: &[u8; 4],
    from: Option<WideItemId>,
    to: &[WideItemId],
)
    requires room { Room out.old (cond (is_some from) (reference_size (form_of form) (length to.now)) 0) }
    requires counted { length to.now ≤ 65535 }
    ensures { let f = form_of form in Boxed out.old (cond (is_some from) (reference_size f (length to.now)) 0) (option_to_list (option_map (λ i. reference_of f kind.now i.0 (numbers to.now)) from)) out.new }
{
    if let Some(from) = from {
        write_ref(out, form, kind, from, to);
    }
}

// dimg from a picture's grid to its tiles. It is not `write_ref`, since their ids are a range, and no slice: one function for both would take
// an iterator, and a count beside it.
pub(crate) fn write_tile_refs(out: &mut Output, form: FileForm, picture: PictureIds)
    requires room { Room out.old (reference_size (form_of form) picture.tiles.count) }
    requires counted { picture.tiles.count ≤ 65535 }
    ensures { Boxed out.old (reference_size (form_of form) picture.tiles.count) (reference (form_of form) "dimg" picture.grid.0 (ids_from picture.tiles.first.0 picture.tiles.count) ∷ []) out.new }
{
    write_ref_head(out, form, b"dimg", picture.grid, picture.tiles.count as u16);
    write_ids(out, form, picture.tiles);
}
