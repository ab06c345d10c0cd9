// The entries of a picture in iinf: its tiles and its grid.
ghost use Rattle.std.specs.Prelude.{[], ◌∷◌, ◌+◌, ◌*◌};
ghost use Rattle.octets.specs.Numbers.{◌‖◌};
ghost use Rattle.octets.specs.Stores.{Room, Boxed};
ghost use Rattle.panel.specs.Form.{form_of};
ghost use Rattle.heif.specs.Iinf.{infe, tile_infes, infe_size};

use crate::infe::{Entry, write_infe};
use octets::Output;
use panel::{FileForm, Ids, WideItemId};
use plan_items::items::PictureIds;

// The hidden entries of tiles with these ids.
fn write_tile_infes(out: &mut Output, form: FileForm, ids: Ids)
    requires { Room out.old (infe_size (form_of form) * ids.count) }
    ensures { Boxed out.old (infe_size (form_of form) * ids.count) (tile_infes (form_of form) ids.first.0 ids.count) out.new }
{
    for id in ids.range() {
        write_infe(
            out,
            form,
            &Entry {
                id: WideItemId(id),
                kind: b"hvc1",
                hidden: true,
                content_type: b"",
            },
        );
    }
}

// The entries of a picture: the hidden ones of its tiles, and its grid's. It is put where it is called, for the reason that is given at
// `write_colr_nclx` (write_properties).
#[inline(always)]
pub(crate) fn write_picture_infes(out: &mut Output, form: FileForm, picture: PictureIds)
    requires { Room out.old (infe_size (form_of form) * picture.tiles.count + infe_size (form_of form)) }
    ensures { Boxed out.old (infe_size (form_of form) * picture.tiles.count + infe_size (form_of form)) (tile_infes (form_of form) picture.tiles.first.0 picture.tiles.count ‖ infe (form_of form) 0 picture.grid.0 "grid" [] ∷ []) out.new }
{
    write_tile_infes(out, form, picture.tiles);
    write_infe(
        out,
        form,
        &Entry {
            id: picture.grid,
            kind: b"grid",
            hidden: false,
            content_type: b"",
        },
    );
}
