// The size of ipma, by how many properties each item is associated with.
ghost use Rattle.std.specs.Prelude.{◌≡◌, ◌+◌, ◌*◌, ◌≤◌, length};
ghost use Rattle.panel.specs.Form.{form_of};
ghost use Rattle.heif.specs.Ipma.{association_size, associations, ipma};
ghost use Rattle.plan_runs.specs.Lists.{listed};
ghost use Rattle.plan_runs.specs.Roles.{its_of};

use panel::FileForm;
use panel::when::when;
use plan_items::form::ids_bytes;
use plan_items::items::Items;
use plan_runs::Places;
use plan_runs::lists::{
    Associated, alpha_grid_list, alpha_tile_list, color_grid_list, color_tile_list, count,
    image_list, tone_list,
};

// The entry of an item that is associated with these: an id, a count, and a byte for each.
fn entry_size(form: FileForm, list: &[Associated]) -> u32
    requires { length list.now ≤ 7 }
    ensures value { result ≡ association_size (form_of form) (length (listed list.now)) }
    ensures upper_bound { result ≤ 894 }
{
    ids_bytes(form, 1) + 1 + count(list) as u32
}

// The entries of a picture: those of its n tiles, and its grid's.
fn picture_size(form: FileForm, n: u32, tile: &[Associated], grid: &[Associated]) -> u32
    requires few { n ≤ 65536 }
    requires few_of_tile { length tile.now ≤ 7 }
    requires few_of_grid { length grid.now ≤ 7 }
    ensures value { result ≡ association_size (form_of form) (length (listed tile.now)) * n + association_size (form_of form) (length (listed grid.now)) }
    ensures upper_bound { result ≤ 58700000 }
{
    entry_size(form, tile) * n + entry_size(form, grid)
}

// ipma, the whole box: the entries of both pictures, of the gain image and of the tone map.
pub(crate) fn ipma_size(form: FileForm, s: Items, places: &Places) -> u32
    ensures value { result ≡ 8 + length (ipma (form_of form) (associations s (its_of places.now))).body }
    ensures upper_bound { result ≤ 120000000 }
{
    let n = s.tiles();
    let color = picture_size(form, n, &color_tile_list(places), &color_grid_list(places));
    let alpha = picture_size(form, n, &alpha_tile_list(places), &alpha_grid_list(places));
    let image = entry_size(form, &image_list(places));
    let tone = entry_size(form, &tone_list(places));
    16 + color + alpha + when(s.has_gain(), image) + when(s.has_tone(), tone)
}
