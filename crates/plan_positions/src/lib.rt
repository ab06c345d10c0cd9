// The places of all properties of a panel, from the first position on.

#![tactic(auto)]

pub mod gain;

ghost use Rattle.std.specs.Prelude.{◌≡◌, cond, ◌+◌, ◌≤◌, length};
ghost use Rattle.heif.specs.Colr.{second_colr_count};
ghost use Rattle.heif.specs.Ipco.{Role};
ghost use Rattle.panel.specs.Of.{colour_of, metadata_of, panel_of};
ghost use Rattle.plan_runs.specs.Roles.{its_of};
ghost use Rattle.plan_positions.specs.Options.{optional_at, behind_optional};
ghost use Rattle.plan_positions.specs.Placed.{Placed};

use crate::gain::{GainPlaces, place_gain};
use panel::color::ColorMetadata;
use panel::metadata::Metadata;
use panel::{Panel, PropertyPosition, VisibleSize};
use plan_runs::pictures::{OptionPlaces, alpha_places, color_places, option_places};
use plan_runs::{Places, Positions};

// Whether there is a second colr: a profile beside code points.
fn has_second_colr(color: &ColorMetadata) -> bool
    ensures { let c = colour_of color.now in cond result 1 0 ≡ second_colr_count c.cicp c.icc }
{
    color.cicp.is_some() && color.icc.is_some()
}

// The places of the properties that may be absent.
fn optional_places(
    color: &ColorMetadata,
    metadata: &Metadata,
    visible: Option<VisibleSize>,
    positions: Positions,
) -> (OptionPlaces, Positions)
    requires { positions.next.0 + 5 ≤ 127 }
    ensures places { result.0 ≡ optional_at positions.next.0 (colour_of color.now) (metadata_of metadata.now) visible }
    ensures next { result.1.next.0 ≡ behind_optional positions.next.0 (colour_of color.now) (metadata_of metadata.now) visible }
{
    let orientation = metadata.orientation;
    option_places(
        positions,
        has_second_colr(color),
        orientation.irot_steps() != 0,
        orientation.imir_axis().is_some(),
        metadata.content_light_level.is_some(),
        visible.is_some(),
    )
}

// The places of all properties: the colour picture's, alpha's, those that may be absent, and the gain map's; of each role at most two. One
// record runs through them and says at the end how many there are.
pub fn places_of(panel: &Panel) -> Places
    ensures placed { Placed (panel_of panel.now) result }
    ensures few { (r : Role) → length (its_of result r) ≤ 2 }
    ensures count_bound { result.count ≤ 127 }
{
    let first = Positions {
        next: PropertyPosition(1),
    };
    let (color, positions) = color_places(first);
    let (alpha, positions) = alpha_places(positions);
    let (options, mut positions) = optional_places(
        &panel.color_meta,
        &panel.metadata,
        panel.visible,
        positions,
    );
    let GainPlaces { image, tone } = place_gain(&mut positions, &panel.gain_map);
    Places {
        color,
        alpha,
        options,
        image,
        tone,
        count: positions.next.0 - 1,
    }
}
