// What the brands of a file depend on: whether its decoder configuration records are of the range extensions' profile.
ghost use Rattle.std.specs.Prelude.{◌≡◌, ◌&&◌, not, option_map};
ghost use Rattle.panel.specs.Of.{gain_of};
ghost use Rattle.heif.specs.Hvcc.{rext};
ghost use Rattle.heif.specs.Ftyp.{gain_rext};

use panel::gain_map::EncodedGainMap;

// Whether a decoder configuration record is of the range extensions' profile.
pub fn hvcc_uses_rext(hvcc: &[u8]) -> bool
    ensures { result ≡ rext hvcc.now }
{
    match hvcc {
        [_, profile, ..] => profile % 32 == 4,
        _ => false,
    }
}

// Whether there is a gain map whose record is of the range extensions' profile.
pub fn gain_uses_rext(gain: &Option<EncodedGainMap>) -> bool
    ensures { result ≡ gain_rext (option_map gain_of gain.now) }
{
    gain.is_some_and(|g| hvcc_uses_rext(g.hvcc))
}

// Whether the gain map's record adds a brand that the colour record did not bring. Here and where ftyp is counted and written the two, and
// whether there is a tone map, are handed as the definition of ftyp takes them.
pub fn adds_heix(color: bool, gain: bool) -> bool
    ensures { result ≡ (gain && not color) }
{
    gain && !color
}
