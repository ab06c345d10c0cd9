// Ids and counts of items as the form of the file has them, and the heads of the boxes that hold them.

#![tactic(auto)]

pub mod form;

ghost use Rattle.std.specs.Prelude.{◌≡◌, ◌*◌, ◌%◌};
ghost use mathlib.Core.List.{flat_map};
ghost use Rattle.octets.specs.Numbers.{be};
ghost use Rattle.octets.specs.Stores.{Room, Wrote};
ghost use Rattle.panel.specs.Form.{form_of};
ghost use Rattle.heif.specs.Items.{ids_from};

use octets::Output;
use panel::{FileForm, Ids, ItemId, WideItemId};

// An id as the ordinary form has it, in 16 bits. Check 4 sees to it that none is cut. It answers for every id and cannot fail; a TryFrom
// would refuse some, with an error that no caller gets.
pub fn ordinary_id(id: WideItemId) -> ItemId
    ensures { result.0 ≡ id.0 % 65536 }
{
    ItemId((id.0 % 65536) as u16)
}

// Writes an id of the ordinary form.
pub fn write_ordinary_id(out: &mut Output, id: ItemId)
    requires { Room out.old 2 }
    ensures { Wrote out.old 2 (be 2 id.0) out.new }
{
    out.w16(id.0);
}

// Writes an id of the wide form.
pub fn write_wide_id(out: &mut Output, id: WideItemId)
    requires { Room out.old 4 }
    ensures { Wrote out.old 4 (be 4 id.0) out.new }
{
    out.w32(id.0);
}

// Writes an id as the form has it. Here and in the crates that stand on this one, output and form are two parameters, and not one struct:
// half of the writers have no form to ask, and a struct of both would be one more borrow at each call.
pub fn write_id(out: &mut Output, form: FileForm, id: WideItemId)
    requires { Room out.old (form_of form).id }
    ensures { Wrote out.old (form_of form).id (be (form_of form).id id.0) out.new }
{
    if form.is_wide() {
        write_wide_id(out, id);
    } else {
        write_ordinary_id(out, ordinary_id(id));
    }
}

// Writes these ids.
pub fn write_ids(out: &mut Output, form: FileForm, ids: Ids)
    requires { Room out.old ((form_of form).id * ids.count) }
    ensures { Wrote out.old ((form_of form).id * ids.count) (flat_map (be (form_of form).id) (ids_from ids.first.0 ids.count)) out.new }
{
    for id in ids.range() {
        write_id(out, form, WideItemId(id));
    }
}
