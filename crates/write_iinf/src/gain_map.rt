// The gain map's entries in iinf.
ghost use Rattle.std.specs.Prelude.{cond, [], ◌∷◌, ◌+◌, ◌*◌};
ghost use Rattle.octets.specs.Numbers.{◌‖◌, be, text};
ghost use Rattle.octets.specs.Stores.{Room, Boxed};
ghost use Rattle.panel.specs.Form.{form_of};
ghost use Rattle.panel.specs.Parts.{given};
ghost use Rattle.heif.specs.Items.{gain_id, xmp_id};
ghost use Rattle.heif.specs.Iinf.{infe, gain_infes, infe_size, rdf_size, gain_infes_size};

use crate::infe::{Entry, write_given_infe, write_infe};
use octets::Output;
use panel::FileForm;
use plan_items::items::Items;

// The entries of the gain image and of its XMP, both hidden.
fn write_image_infes(out: &mut Output, form: FileForm, s: Items)
    requires { Room out.old (cond s.gain (2 * infe_size (form_of form) + rdf_size) 0) }
    ensures { Boxed out.old (cond s.gain (2 * infe_size (form_of form) + rdf_size) 0) (given s.gain (infe (form_of form) 1 (gain_id s) "hvc1" [] ∷ infe (form_of form) 1 (xmp_id s) "mime" (text "application/rdf+xml" ‖ be 1 0) ∷ [])) out.new }
{
    if s.has_gain() {
        let image = Entry {
            id: s.gain_id(),
            kind: b"hvc1",
            hidden: true,
            content_type: b"",
        };
        let xmp = Entry {
            id: s.xmp_id(),
            kind: b"mime",
            hidden: true,
            content_type: b"application/rdf+xml\0",
        };
        write_infe(out, form, &image);
        write_infe(out, form, &xmp);
    }
}

// The gain map's entries. That of the tone map is not hidden.
pub(crate) fn write_gain_infes(out: &mut Output, form: FileForm, s: Items)
    requires { Room out.old (gain_infes_size (form_of form) s) }
    ensures { Boxed out.old (gain_infes_size (form_of form) s) (gain_infes (form_of form) s) out.new }
{
    write_image_infes(out, form, s);
    write_given_infe(out, form, b"tmap", s.tone());
}
