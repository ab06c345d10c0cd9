// ipma: which properties each item has.

#![tactic(auto, using(crate::proofs::Entries::lengths))]

pub mod association;

ghost use Rattle.std.specs.Prelude.{◌≡◌, ◌+◌, length};
ghost use mathlib.Core.List.{[], ◌∷◌, flat_map};
ghost use Rattle.octets.specs.Numbers.{◌‖◌};
ghost use Rattle.octets.specs.Stores.{Room, Wrote, Boxed};
ghost use Rattle.panel.specs.Form.{form_of};
ghost use Rattle.heif.specs.Ipma.{◌with◌, each, gain_associations, associations, association, ipma, associated_items};
ghost use Rattle.plan_runs.specs.Roles.{its_of};
ghost use Rattle.plan_runs.specs.Lists.{listed};

use crate::association::{
    entry_count, write_association, write_associations, write_given_association,
};
use octets::Output;
use panel::FileForm;
use panel::when::when;
use plan_items::items::{Items, PictureIds};
use plan_runs::Places;
use plan_runs::lists::{
    Associated, alpha_grid_list, alpha_tile_list, color_grid_list, color_tile_list, image_list,
    tone_list,
};
use write_ids::form::write_item_box;

// The entries of a picture: its tiles', which have the same properties, and its grid's. It is put where it is called: called as a function
// of its own it would look up the output anew behind each byte, as a byte could be a part of the output.
#[inline(always)]
fn write_picture_associations(
    out: &mut Output,
    form: FileForm,
    ids: PictureIds,
    tile: &[Associated],
    grid: &[Associated],
)
    requires { Room out.old (length (flat_map (association (form_of form)) (each ids.tiles.first.0 ids.tiles.count (listed tile.now) ‖ (ids.grid.0 with listed grid.now) ∷ []))) }
    ensures { let bytes = flat_map (association (form_of form)) (each ids.tiles.first.0 ids.tiles.count (listed tile.now) ‖ (ids.grid.0 with listed grid.now) ∷ []) in Wrote out.old (length bytes) bytes out.new }
{
    write_associations(out, form, ids.tiles, tile);
    write_association(out, form, ids.grid, entry_count(grid), grid);
}

// The entries of the gain map: the gain image's and the tone map's, where there are any.
fn write_gain_associations(out: &mut Output, form: FileForm, s: Items, y: &Places)
    requires { Room out.old (length (flat_map (association (form_of form)) (gain_associations s (its_of y.now)))) }
    ensures { let bytes = flat_map (association (form_of form)) (gain_associations s (its_of y.now)) in Wrote out.old (length bytes) bytes out.new }
{
    write_given_association(out, form, s.gain(), &image_list(y));
    write_given_association(out, form, s.tone(), &tone_list(y));
}

// How many items ipma names: the tiles, the grids, the gain image and the tone map.
fn associated_items(s: Items) -> u32
    ensures { result ≡ associated_items s }
{
    2 * s.tiles() + 2 + when(s.has_gain(), 1) + when(s.has_tone(), 1)
}

// ipma.
pub fn write_ipma(out: &mut Output, form: FileForm, size: u32, s: Items, y: &Places)
    requires room { Room out.old (8 + length (ipma (form_of form) (associations s (its_of y.now))).body) }
    requires size_value { size ≡ 8 + length (ipma (form_of form) (associations s (its_of y.now))).body }
    ensures { let box = ipma (form_of form) (associations s (its_of y.now)) in Boxed out.old (8 + length box.body) (box ∷ []) out.new }
{
    write_item_box(out, form, size, b"ipma", 0, 0);
    out.w32(associated_items(s));
    write_picture_associations(
        out,
        form,
        s.color(),
        &color_tile_list(y),
        &color_grid_list(y),
    );
    write_picture_associations(
        out,
        form,
        s.alpha(),
        &alpha_tile_list(y),
        &alpha_grid_list(y),
    );
    write_gain_associations(out, form, s, y);
}
