// infe: one entry of iinf.
ghost use Rattle.std.specs.Prelude.{cond, [], ◌∷◌, ◌+◌, ◌<◌, length, is_some, option_map, option_to_list};
ghost use Rattle.octets.specs.Numbers.{◌‖◌, be};
ghost use Rattle.octets.specs.Stores.{Room, Wrote, Boxed};
ghost use Rattle.panel.specs.Form.{form_of};
ghost use Rattle.heif.specs.Iinf.{infe_size};
ghost use Rattle.write_iinf.specs.Entry.{infe_of, shown};

use octets::{Output, size_of};
use panel::when::when;
use panel::{FileForm, WideItemId};
use plan_items::form::ids_bytes;
use write_ids::form::write_item_box;
use write_ids::write_id;

// What an entry says: an item's id and type, whether it is hidden, and of a mime item the content type with a zero byte behind it.
#[derive(Drop)]
pub(crate) struct Entry<'a> {
    pub id: WideItemId,
    pub kind: &'a [u8; 4],
    pub hidden: bool,
    pub content_type: &'a [u8],
}

// What stands behind an item's id: protection index 0, its type, an empty name, the content type.
fn write_item_type(out: &mut Output, kind: &[u8; 4], content_type: &[u8])
    requires { Room out.old (7 + length content_type.now) }
    ensures { Wrote out.old (7 + length content_type.now) (be 2 0 ‖ kind.now ‖ be 1 0 ‖ content_type.now) out.new }
{
    out.w16(0);
    out.put(kind);
    out.w8(0);
    out.put(content_type);
}

// An entry. That its size fits in 32 bits is asked for an id of four bytes, the longest that a form has, so that it holds in every form.
pub(crate) fn write_infe(out: &mut Output, form: FileForm, entry: &Entry)
    requires room { Room out.old (infe_size (form_of form) + length entry.now.content_type.now) }
    requires short { 23 + length entry.now.content_type.now < 4294967296 }
    ensures { Boxed out.old (infe_size (form_of form) + length entry.now.content_type.now) (infe_of (form_of form) entry.now ∷ []) out.new }
{
    let size = size_of(19 + ids_bytes(form, 1), entry.content_type.len());
    write_item_box(out, form, size, b"infe", 2, when(entry.hidden, 1));
    write_id(out, form, entry.id);
    write_item_type(out, entry.kind, entry.content_type);
}

// The entry of an item of this type that is not hidden, where there is one.
pub(crate) fn write_given_infe(
    out: &mut Output,
    form: FileForm,
    kind: &[u8; 4],
    id: Option<WideItemId>,
)
    requires { Room out.old (cond (is_some id) (infe_size (form_of form)) 0) }
    ensures { let f = form_of form in Boxed out.old (cond (is_some id) (infe_size f) 0) (option_to_list (option_map (λ i. shown f kind.now i.0) id)) out.new }
{
    if let Some(id) = id {
        write_infe(
            out,
            form,
            &Entry {
                id,
                kind,
                hidden: false,
                content_type: b"",
            },
        );
    }
}
