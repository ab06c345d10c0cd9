// The grid of tiles, and its descriptor: whether it is the long one, and its length.
ghost use Rattle.std.specs.Prelude.{◌≡◌, ◌-◌, ◌≤◌};
ghost use Rattle.heif.specs.Idat.{large, descriptor_size};
ghost use Rattle.plan_items.specs.Grid.{Sided};

use panel::GridDims;
use std::marker::Model;

// A grid of 1 to 256 rows and as many columns, as check 1 lets it pass. In a clause it is its sizes.
#[derive(Clone, Copy)]
pub struct Grid {
    dims: GridDims,
}

impl Model for Grid {
    ghost use Rattle.panel.specs.declared.GridDims.{GridDims};
    ghost use Rattle.plan_items.specs.Grid.{Sided};

    ghost Value = { GridDims };

    ghost view = { λ a. a.dims };

    ghost invariant = { λ a. Sided a.dims };

    ghost inverse = { λ d. record { dims = d } };
}

impl Grid {
    // The grid of such sizes.
    pub fn new(dims: GridDims) -> Grid
        requires { Sided dims }
        ensures { result ≡ dims }
    {
        Grid { dims }
    }

    // Its sizes.
    pub fn dims(self) -> GridDims
        ensures { result ≡ self }
    {
        self.dims
    }

    // How many rows there are behind the first. It and the next are two, as a descriptor has a field for each.
    pub fn further_rows(self) -> u8
        ensures { result ≡ self.rows - 1 }
    {
        (self.dims.rows - 1) as u8
    }

    // How many columns there are behind the first.
    pub fn further_cols(self) -> u8
        ensures { result ≡ self.cols - 1 }
    {
        (self.dims.cols - 1) as u8
    }
}

// Whether the whole picture is wider or higher than 16 bits can say.
pub fn is_large(d: GridDims) -> bool
    ensures { result ≡ large d }
{
    d.full_w > 65535 || d.full_h > 65535
}

// The length of a grid's descriptor.
pub fn descriptor_length(d: GridDims) -> u32
    ensures value { result ≡ descriptor_size d }
    ensures upper_bound { result ≤ 12 }
{
    if is_large(d) { 12 } else { 8 }
}
