// The positions of the properties of the colour picture and the alpha picture, and of those that may be absent.
ghost use Rattle.std.specs.Prelude.{◌≡◌, cond, ◌+◌, ◌≤◌};
ghost use Rattle.plan_runs.specs.Pictures.{colour_at, alpha_at, options_at};

use crate::{Positions, Run};

// The colour picture's properties. Each struct of places has its own roles for fields, so that none is taken for another, though the gain
// image has as many and the tone map as many as alpha.
#[derive(Clone, Copy)]
pub struct ColorPlaces {
    pub hvcc: Run,
    pub ispe_tile: Run,
    pub ispe_full: Run,
    pub colr: Run,
    pub pixi: Run,
}

// The alpha picture's.
#[derive(Clone, Copy)]
pub struct AlphaPlaces {
    pub hvcc: Run,
    pub pixi: Run,
    pub auxc: Run,
}

// Those that may be absent.
#[derive(Clone, Copy)]
pub struct OptionPlaces {
    pub colr: Run,
    pub irot: Run,
    pub imir: Run,
    pub clli: Run,
    pub clap: Run,
}

// The positions of the colour picture's properties, one of each, and the record raised behind them.
pub fn color_places(positions: Positions) -> (ColorPlaces, Positions)
    requires { positions.next.0 + 5 ≤ 127 }
    ensures places { result.0 ≡ colour_at positions.next.0 }
    ensures next { result.1.next.0 ≡ positions.next.0 + 5 }
{
    let (hvcc, positions) = positions.take(1);
    let (ispe_tile, positions) = positions.take(1);
    let (ispe_full, positions) = positions.take(1);
    let (colr, positions) = positions.take(1);
    let (pixi, positions) = positions.take(1);
    let places = ColorPlaces {
        hvcc,
        ispe_tile,
        ispe_full,
        colr,
        pixi,
    };
    (places, positions)
}

// The positions of the alpha picture's properties, one of each.
pub fn alpha_places(positions: Positions) -> (AlphaPlaces, Positions)
    requires { positions.next.0 + 3 ≤ 127 }
    ensures places { result.0 ≡ alpha_at positions.next.0 }
    ensures next { result.1.next.0 ≡ positions.next.0 + 3 }
{
    let (hvcc, positions) = positions.take(1);
    let (pixi, positions) = positions.take(1);
    let (auxc, positions) = positions.take(1);
    (AlphaPlaces { hvcc, pixi, auxc }, positions)
}

// The positions of the properties that may be absent, one of each that is there.
pub fn option_places(
    positions: Positions,
    colr: bool,
    irot: bool,
    imir: bool,
    clli: bool,
    clap: bool,
) -> (OptionPlaces, Positions)
    requires { positions.next.0 + 5 ≤ 127 }
    ensures places { result.0 ≡ options_at positions.next.0 (cond colr 1 0) (cond irot 1 0) (cond imir 1 0) (cond clli 1 0) (cond clap 1 0) }
    ensures next { result.1.next.0 ≡ positions.next.0 + cond colr 1 0 + cond irot 1 0 + cond imir 1 0 + cond clli 1 0 + cond clap 1 0 }
{
    let (colr, positions) = positions.take_if(colr);
    let (irot, positions) = positions.take_if(irot);
    let (imir, positions) = positions.take_if(imir);
    let (clli, positions) = positions.take_if(clli);
    let (clap, positions) = positions.take_if(clap);
    let places = OptionPlaces {
        colr,
        irot,
        imir,
        clli,
        clap,
    };
    (places, positions)
}
