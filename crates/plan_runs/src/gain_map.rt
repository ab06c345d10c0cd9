// The positions of the gain map's properties: each function takes the running record and hands it back raised behind what it placed.
ghost use Rattle.std.specs.Prelude.{◌≡◌, ◌≤◌};
ghost use Rattle.plan_runs.specs.GainMap.{behind_image, behind_tone, image_at, tone_at};

use crate::{Positions, Run};

// The positions of the gain image's properties.
#[derive(Clone, Copy)]
pub struct ImagePlaces {
    pub hvcc: Run,
    pub ispe: Run,
    pub pixi: Run,
    pub auxc: Run,
    pub colr: Run,
}

// The positions of the tone map's properties.
#[derive(Clone, Copy)]
pub struct TonePlaces {
    pub ispe: Run,
    pub pixi: Run,
    pub colr: Run,
}

// The gain image's positions, with k boxes of each kind: one where there is a gain map, else none.
pub fn image_places(positions: Positions, k: u8) -> (ImagePlaces, Positions)
    requires { behind_image positions.next.0 k ≤ 127 }
    ensures places { result.0 ≡ image_at positions.next.0 k }
    ensures next { result.1.next.0 ≡ behind_image positions.next.0 k }
{
    let (hvcc, positions) = positions.take(k);
    let (ispe, positions) = positions.take(k);
    let (pixi, positions) = positions.take(k);
    let (auxc, positions) = positions.take(k);
    let (colr, positions) = positions.take(k);
    let places = ImagePlaces {
        hvcc,
        ispe,
        pixi,
        auxc,
        colr,
    };
    (places, positions)
}

// The tone map's positions, with k boxes of each kind and so many colr of the alternate colour.
pub fn tone_places(positions: Positions, k: u8, alternates: u8) -> (TonePlaces, Positions)
    requires { behind_tone positions.next.0 k alternates ≤ 127 }
    ensures places { result.0 ≡ tone_at positions.next.0 k alternates }
    ensures next { result.1.next.0 ≡ behind_tone positions.next.0 k alternates }
{
    let (ispe, positions) = positions.take(k);
    let (pixi, positions) = positions.take(k);
    let (colr, positions) = positions.take(alternates);
    (TonePlaces { ispe, pixi, colr }, positions)
}
