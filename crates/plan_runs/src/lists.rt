// What each item is associated with: runs in the order in which ipma names them, each essential or not.
#![tactic(auto, using(crate::proofs::Listed::listed_one, crate::proofs::Listed::listed_more), unfolding(crate::specs::Roles::its_of))]

ghost use Rattle.std.specs.Prelude.{◌≡◌, true, false, ◌*◌, ◌≤◌, length};
ghost use Rattle.heif.specs.Ipma.{colour_tile_list, colour_grid_list, alpha_tile_list, alpha_grid_list, image_list, tone_list};
ghost use Rattle.plan_runs.specs.Roles.{its_of};
ghost use Rattle.plan_runs.specs.Lists.{listed};

use crate::{Places, Run};

// Positions that an item is associated with, and whether its associations are essential.
#[derive(Clone, Copy)]
pub struct Associated {
    pub run: Run,
    pub essential: bool,
}

// Positions whose associations are essential. It and `plain` are two, so that a list names what ipma says of each of its runs.
fn essential(run: Run) -> Associated
    ensures { result ≡ record { run = run; essential = true } }
{
    Associated {
        run,
        essential: true,
    }
}

// Positions whose associations are not.
fn plain(run: Run) -> Associated
    ensures { result ≡ record { run = run; essential = false } }
{
    Associated {
        run,
        essential: false,
    }
}

// A colour tile: hvcC, ispe, colr, and last what is there of clap, all essential.
pub fn color_tile_list(y: &Places) -> [Associated; 4]
    ensures { listed result ≡ colour_tile_list (its_of y.now) }
{
    let color = &y.color;
    let options = &y.options;
    [
        essential(color.hvcc),
        essential(color.ispe_tile),
        essential(color.colr),
        essential(options.clap),
    ]
}

// The colour grid: ispe, colr, which is essential, pixi, what is there of the second colr and clli, and irot and imir, which come last
// and are essential.
pub fn color_grid_list(y: &Places) -> [Associated; 7]
    ensures { listed result ≡ colour_grid_list (its_of y.now) }
{
    let color = &y.color;
    let options = &y.options;
    [
        plain(color.ispe_full),
        essential(color.colr),
        plain(color.pixi),
        plain(options.colr),
        plain(options.clli),
        essential(options.irot),
        essential(options.imir),
    ]
}

// An alpha tile: hvcC, ispe, and last what is there of clap, all essential.
pub fn alpha_tile_list(y: &Places) -> [Associated; 3]
    ensures { listed result ≡ alpha_tile_list (its_of y.now) }
{
    [
        essential(y.alpha.hvcc),
        essential(y.color.ispe_tile),
        essential(y.options.clap),
    ]
}

// The alpha grid: ispe, pixi, auxC, and of what may be absent irot and imir.
pub fn alpha_grid_list(y: &Places) -> [Associated; 5]
    ensures { listed result ≡ alpha_grid_list (its_of y.now) }
{
    [
        plain(y.color.ispe_full),
        plain(y.alpha.pixi),
        plain(y.alpha.auxc),
        essential(y.options.irot),
        essential(y.options.imir),
    ]
}

// The gain image: hvcC first, which is essential, and irot and imir, which come last and are, too.
pub fn image_list(y: &Places) -> [Associated; 7]
    ensures { listed result ≡ image_list (its_of y.now) }
{
    [
        essential(y.image.hvcc),
        plain(y.image.ispe),
        plain(y.image.pixi),
        plain(y.image.auxc),
        plain(y.image.colr),
        essential(y.options.irot),
        essential(y.options.imir),
    ]
}

// The tone map: none is essential.
pub fn tone_list(y: &Places) -> [Associated; 3]
    ensures { listed result ≡ tone_list (its_of y.now) }
{
    [plain(y.tone.ispe), plain(y.tone.pixi), plain(y.tone.colr)]
}

// How many associations a list has. In 128 bits no sum wraps. A `for`: over `map` and `sum` the bound did not close, as a run's own bound is
// told by the call that asks for its count, and the list says nothing of it.
pub fn count(list: &[Associated]) -> u128
    ensures value { result ≡ length (listed list.now) }
    ensures upper_bound { result ≤ 127 * length list.now }
{
    let mut n = 0;
    for associated in list {
        n += u128::from(associated.run.count());
    }
    n
}
