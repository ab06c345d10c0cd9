// The box pitm.
ghost use Rattle.std.specs.Prelude.{[], ◌∷◌, ◌+◌};
ghost use Rattle.octets.specs.Numbers.{be};
ghost use Rattle.octets.specs.Boxes.{full};
ghost use Rattle.octets.specs.Stores.{Room, Boxed};
ghost use Rattle.panel.specs.Form.{form_of};
ghost use Rattle.heif.specs.Pitm.{pitm_size};

use octets::Output;
use panel::{FileForm, WideItemId};
use plan_items::form::ids_bytes;
use write_ids::form::write_item_box;
use write_ids::write_id;

// pitm: the primary item's id.
pub fn write_pitm(out: &mut Output, form: FileForm, id: WideItemId)
    requires { Room out.old (8 + pitm_size (form_of form)) }
    ensures { Boxed out.old (8 + pitm_size (form_of form)) (full "pitm" (form_of form).step 0 (be (form_of form).id id.0) ∷ []) out.new }
{
    write_item_box(out, form, 12 + ids_bytes(form, 1), b"pitm", 0, 0);
    write_id(out, form, id);
}
