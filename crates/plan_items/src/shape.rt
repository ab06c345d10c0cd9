// Which items a file has.
ghost use Rattle.std.specs.Prelude.{◌≡◌, length};
ghost use Rattle.panel.specs.Of.{panel_of};
ghost use Rattle.heif.specs.Items.{shape};

use panel::{Panel, Shape};

// The shape of a panel with so many tiles.
#[tactic(auto, unfolding(panel::specs::Of::panel_of))]
pub fn shape_of(panel: &Panel, tiles: u32) -> Shape
    ensures value { length panel.now.color.samples.lengths.now ≡ tiles → result ≡ shape (panel_of panel.now) }
    ensures tiles_value { result.tiles ≡ tiles }
{
    Shape {
        tiles,
        exif: panel.metadata.exif.is_some(),
        gain: panel.gain_map.is_some(),
        tone: panel.gain_map.is_some_and(|g| g.tmap.is_some()),
    }
}
