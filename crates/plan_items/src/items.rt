// The items of a file: how many tiles there are, what else there is, and the id of each.
ghost use Rattle.std.specs.Prelude.{◌≡◌, ◌+◌, ◌*◌, ◌≤◌, ◌<◌};
ghost use Rattle.std.specs.Bool.{then_some};
ghost use Rattle.heif.specs.Items.{colour_grid, alpha_tile, alpha_grid, exif_id, gain_id, last_id, xmp_id, tone_id};

use panel::when::when;
use panel::{Ids, Shape, WideItemId};
use std::marker::Model;

// A shape of at most 65,536 tiles, as many as a grid of the sides that check 1 lets pass. In a clause it is that shape. The form of the
// file is handed beside it and not kept in it: which items there are does not hang on it, and the definitions take the two apart.
#[derive(Clone, Copy)]
pub struct Items {
    shape: Shape,
}

impl Model for Items {
    ghost use Rattle.panel.specs.declared.Shape.{Shape};
    ghost use Rattle.std.specs.Prelude.{◌≤◌};

    ghost Value = { Shape };

    ghost view = { λ a. a.shape };

    ghost invariant = { λ a. a.shape.tiles ≤ 65536 };

    ghost inverse = { λ s. record { shape = s } };
}

// Each id has a function of its own, as it has a definition: which of them is meant stands in the name, where one function over them all
// would be told it.
impl Items {
    // The items of such a shape.
    pub fn new(shape: Shape) -> Items
        requires { shape.tiles ≤ 65536 }
        ensures { result ≡ shape }
    {
        Items { shape }
    }

    // How many tiles each picture has.
    pub fn tiles(self) -> u32
        ensures value { result ≡ self.tiles }
        ensures upper_bound { result ≤ 65536 }
    {
        self.shape.tiles
    }

    // Whether there is Exif.
    pub fn has_exif(self) -> bool
        ensures { result ≡ self.exif }
    {
        self.shape.exif
    }

    // Whether there is a gain map.
    pub fn has_gain(self) -> bool
        ensures { result ≡ self.gain }
    {
        self.shape.gain
    }

    // Whether there is a tone map.
    pub fn has_tone(self) -> bool
        ensures { result ≡ self.tone }
    {
        self.shape.tone
    }

    // The colour grid's id.
    pub fn color_grid_id(self) -> WideItemId
        ensures { result.0 ≡ colour_grid self }
    {
        WideItemId(self.shape.tiles + 1)
    }

    // The first alpha tile's id.
    pub fn alpha_tile_base(self) -> WideItemId
        ensures { result.0 ≡ alpha_tile self }
    {
        WideItemId(self.shape.tiles + 2)
    }

    // The alpha grid's id.
    pub fn alpha_grid_id(self) -> WideItemId
        ensures { result.0 ≡ alpha_grid self }
    {
        WideItemId(2 * self.shape.tiles + 2)
    }

    // The Exif's id, where it is present.
    pub fn exif_id(self) -> WideItemId
        ensures { result.0 ≡ exif_id self }
    {
        WideItemId(2 * self.shape.tiles + 3)
    }

    // The gain image's id, where it is present.
    pub fn gain_id(self) -> WideItemId
        ensures { result.0 ≡ gain_id self }
    {
        WideItemId(2 * self.shape.tiles + 3 + when(self.shape.exif, 1))
    }

    // The id of its XMP.
    pub fn xmp_id(self) -> WideItemId
        ensures { result.0 ≡ xmp_id self }
    {
        WideItemId(2 * self.shape.tiles + 4 + when(self.shape.exif, 1))
    }

    // The tone map's id, where it is present.
    pub fn tmap_id(self) -> WideItemId
        ensures value { result.0 ≡ tone_id self }
        ensures bound { result.0 < 4294967295 }
    {
        WideItemId(2 * self.shape.tiles + 5 + when(self.shape.exif, 1))
    }

    // The last item id, which is how many items there are, and which check 4 asks for.
    pub fn last_id(self) -> u32
        ensures value { result ≡ last_id self }
        ensures upper_bound { result ≤ 131078 }
    {
        let s = self.shape;
        2 * s.tiles + 2 + when(s.exif, 1) + when(s.gain, 2) + when(s.tone, 1)
    }

    // The Exif's id, where there is Exif.
    pub fn exif(self) -> Option<WideItemId>
        ensures { result ≡ then_some self.exif (record { 0 = exif_id self }) }
    {
        self.has_exif().then_some(self.exif_id())
    }

    // The gain image's id, where there is a gain map.
    pub fn gain(self) -> Option<WideItemId>
        ensures { result ≡ then_some self.gain (record { 0 = gain_id self }) }
    {
        self.has_gain().then_some(self.gain_id())
    }

    // The tone map's id, where there is one.
    pub fn tone(self) -> Option<WideItemId>
        ensures { result ≡ then_some self.tone (record { 0 = tone_id self }) }
    {
        self.has_tone().then_some(self.tmap_id())
    }

    // The colour picture's ids.
    pub fn color(self) -> PictureIds
        ensures first { result.tiles.first.0 ≡ 1 }
        ensures count { result.tiles.count ≡ self.tiles }
        ensures grid { result.grid.0 ≡ colour_grid self }
    {
        let first = WideItemId(1);
        let count = self.shape.tiles;
        PictureIds {
            tiles: Ids { first, count },
            grid: self.color_grid_id(),
        }
    }

    // The alpha picture's ids.
    pub fn alpha(self) -> PictureIds
        ensures first { result.tiles.first.0 ≡ alpha_tile self }
        ensures count { result.tiles.count ≡ self.tiles }
        ensures grid { result.grid.0 ≡ alpha_grid self }
    {
        let first = self.alpha_tile_base();
        let count = self.shape.tiles;
        PictureIds {
            tiles: Ids { first, count },
            grid: self.alpha_grid_id(),
        }
    }
}

// The ids of a picture's items.
#[derive(Clone, Copy)]
pub struct PictureIds {
    pub tiles: Ids,
    pub grid: WideItemId,
}
