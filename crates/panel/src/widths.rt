// What the types of a panel's numbers say of them. These functions do nothing but look at a number, so that its type is known: their
// contracts are what counts.
ghost use Rattle.std.specs.Prelude.{option_map};
ghost use Rattle.panel.specs.Of.{gain_of, panel_of};
ghost use Rattle.panel.specs.Widths.{Of, DimsFit, VisibleFits, LightFits, GainFits, Fits};

use crate::gain_map::EncodedGainMap;
use crate::metadata::ContentLightLevel;
use crate::{GridDims, Panel, VisibleSize};

// The sizes of the grid.
fn dims_fit(_dims: GridDims)
    ensures { DimsFit _dims }
{}

// The visible size.
fn visible_fits(visible: Option<VisibleSize>)
    ensures { Of VisibleFits visible }
{
    if let Some(size) = visible {
        let _ = size;
    }
}

// The light level.
fn light_fits(light: Option<ContentLightLevel>)
    ensures { Of LightFits light }
{
    if let Some(level) = light {
        let _ = level;
    }
}

// The sides of the gain image.
fn gain_fits(gain: Option<EncodedGainMap>)
    ensures { Of GainFits (option_map gain_of gain.entry) }
{
    if let Some(g) = gain {
        let _ = g.width;
        let _ = g.height;
    }
}

impl<'a> Panel<'a> {
    // Each number has the width that the theorem on equal files asks for. It is no invariant, which whoever makes a panel would have to prove;
    // the calls for a length and for a file promise it again, so that whoever has the contract of one of them has this premise too.
    #[tactic(auto, unfolding(crate::specs::Of::panel_of))]
    pub fn fits(&self)
        ensures { Fits (panel_of self.now) }
    {
        dims_fit(self.dims);
        visible_fits(self.visible);
        light_fits(self.metadata.content_light_level);
        gain_fits(self.gain_map);
    }
}
