// Orientation, light level and Exif.
ghost use Rattle.std.specs.Prelude.{◌≡◌};
ghost use Rattle.panel.specs.Types.{irot_steps, imir_axis};

// The eight orientations, in Exif's order.
#[derive(Clone, Copy)]
pub enum Orientation {
    Normal,
    FlipH,
    Rotate180,
    FlipV,
    Transpose,
    Rotate90,
    Transverse,
    Rotate270,
}

impl Orientation {
    // The turns of irot: quarters of a turn anticlockwise.
    pub fn irot_steps(self) -> u8
        ensures { result ≡ irot_steps self }
    {
        match self {
            Orientation::Normal | Orientation::FlipH | Orientation::FlipV => 0,
            Orientation::Transverse | Orientation::Rotate270 => 1,
            Orientation::Rotate180 => 2,
            Orientation::Transpose | Orientation::Rotate90 => 3,
        }
    }

    // The axis of imir, where there is a mirror.
    pub fn imir_axis(self) -> Option<bool>
        ensures { result ≡ imir_axis self }
    {
        match self {
            Orientation::FlipH | Orientation::Transpose | Orientation::Transverse => Some(false),
            Orientation::FlipV => Some(true),
            _ => None,
        }
    }
}

// Content light level, in candela per square metre.
#[derive(Clone, Copy)]
pub struct ContentLightLevel {
    pub max_content_light_level: u16,
    pub max_pic_average_light_level: u16,
}

// What is said of the picture beside its colour.
#[derive(Clone, Copy)]
pub struct Metadata<'a> {
    pub orientation: Orientation,
    pub content_light_level: Option<ContentLightLevel>,
    pub exif: Option<&'a [u8]>,
}
