// The positions of the gain map's properties: the record that runs through all properties is lent, and raised behind them.
ghost use Rattle.std.specs.Prelude.{◌≡◌, ◌≤◌, option_map};
ghost use Rattle.panel.specs.Of.{gain_of};
ghost use Rattle.plan_positions.specs.Gain.{tones, toned_alternates, gain_at, behind_gain};

use panel::color::ColorMetadata;
use panel::gain_map::EncodedGainMap;
use plan_runs::Positions;
use plan_runs::gain_map::{ImagePlaces, TonePlaces, image_places, tone_places};

// The positions of the gain map's properties: the gain image's, and the tone map's.
#[derive(Clone, Copy)]
pub struct GainPlaces {
    pub image: ImagePlaces,
    pub tone: TonePlaces,
}

// How many boxes of each kind the tone map has.
fn tone_count(gain: &Option<EncodedGainMap>) -> u8
    ensures { result ≡ tones (option_map gain_of gain.now) }
{
    u8::from(gain.is_some_and(|g| g.tmap.is_some()))
}

// How many colr the alternate colour has beside a tone map.
fn alternate_count(gain: &Option<EncodedGainMap>) -> u8
    ensures { result ≡ toned_alternates (option_map gain_of gain.now) }
{
    match gain {
        Some(
            EncodedGainMap {
                tmap: Some(_),
                alternate_color: Some(color),
                ..
            },
        ) => u8::from(color.cicp.is_some()) + u8::from(color.icc.is_some()),
        _ => 0,
    }
}

// The gain map's positions, by value.
fn gain_places(positions: Positions, gain: &Option<EncodedGainMap>) -> (GainPlaces, Positions)
    requires { behind_gain positions.next.0 (option_map gain_of gain.now) ≤ 127 }
    ensures places { result.0 ≡ gain_at positions.next.0 (option_map gain_of gain.now) }
    ensures next { result.1.next.0 ≡ behind_gain positions.next.0 (option_map gain_of gain.now) }
{
    let (image, positions) = image_places(positions, u8::from(gain.is_some()));
    let (tone, positions) = tone_places(positions, tone_count(gain), alternate_count(gain));
    (GainPlaces { image, tone }, positions)
}

// Places the gain map's properties from the record that it is lent, and raises the record behind them.
pub(crate) fn place_gain(positions: &mut Positions, gain: &Option<EncodedGainMap>) -> GainPlaces
    requires { behind_gain positions.old.next.0 (option_map gain_of gain.now) ≤ 127 }
    ensures places { result ≡ gain_at positions.old.next.0 (option_map gain_of gain.now) }
    ensures next { positions.new.next.0 ≡ behind_gain positions.old.next.0 (option_map gain_of gain.now) }
{
    let (places, raised) = gain_places(*positions, gain);
    *positions = raised;
    places
}
