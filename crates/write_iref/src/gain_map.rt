// The gain map's references in iref.
ghost use Rattle.std.specs.Prelude.{cond, [], ◌∷◌, ◌*◌};
ghost use Rattle.octets.specs.Stores.{Room, Boxed};
ghost use Rattle.panel.specs.Form.{form_of};
ghost use Rattle.panel.specs.Parts.{given};
ghost use Rattle.heif.specs.Items.{gain_id, colour_grid, xmp_id};
ghost use Rattle.heif.specs.Iref.{reference, gain_references, reference_size, gain_references_size};

use crate::reference::{write_given_ref, write_ref};
use octets::Output;
use panel::FileForm;
use plan_items::items::Items;

// The gain image is auxiliary to the colour grid, and its XMP describes it.
fn write_image_refs(out: &mut Output, form: FileForm, s: Items)
    requires { Room out.old (cond s.gain (2 * reference_size (form_of form) 1) 0) }
    ensures { Boxed out.old (cond s.gain (2 * reference_size (form_of form) 1) 0) (given s.gain (reference (form_of form) "auxl" (gain_id s) (colour_grid s ∷ []) ∷ reference (form_of form) "cdsc" (xmp_id s) (gain_id s ∷ []) ∷ [])) out.new }
{
    if s.has_gain() {
        let image = s.gain_id();
        write_ref(out, form, b"auxl", image, &[s.color_grid_id()]);
        write_ref(out, form, b"cdsc", s.xmp_id(), &[image]);
    }
}

// The gain map's references. The tone map derives from the colour grid and the gain image.
pub(crate) fn write_gain_refs(out: &mut Output, form: FileForm, s: Items)
    requires { Room out.old (gain_references_size (form_of form) s) }
    ensures { Boxed out.old (gain_references_size (form_of form) s) (gain_references (form_of form) s) out.new }
{
    write_image_refs(out, form, s);
    let sources = [s.color_grid_id(), s.gain_id()];
    write_given_ref(out, form, b"dimg", s.tone(), &sources);
}
