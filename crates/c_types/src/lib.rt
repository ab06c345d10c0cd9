// What crosses to C: a panel as numbers and codes, its byte parts, and what a call answers; and what is read off a panel without looking a
// code up. C's enums have no fixed size, so that a code is a number. C has no Option, so that a byte whose name begins with has is 1 where
// the part is present, else 0; and its bool is no type of this interface.
#![tactic(auto)]

ghost use Rattle.std.specs.Prelude.{◌≡◌};
ghost use Rattle.c_types.specs.Told.{Tells};
ghost use Rattle.c_types.specs.Plain.{dims_value, visible_value, light_value};

use panel::metadata::ContentLightLevel;
use panel::{GridDims, Tiles, VisibleSize};

// A colour encoding: three code points of ISO/IEC 23091-2, and 1 for the full range, else 0.
#[repr(C)]
#[derive(Clone, Copy)]
pub struct CicpCodes {
    pub primaries: u16,
    pub transfer: u16,
    pub matrix: u16,
    pub full_range: u8,
}

// How a picture states its colour.
#[repr(C)]
#[derive(Clone, Copy)]
pub struct ColorCodes {
    pub has_cicp: u8,
    pub has_icc: u8,
    pub cicp: CicpCodes,
}

// The numbers of a gain map.
#[repr(C)]
#[derive(Clone, Copy)]
pub struct GainCodes {
    pub width: u32,
    pub height: u32,
    pub bit_depth: u8,
    pub has_tmap: u8,
    pub has_alternate: u8,
    pub cicp: CicpCodes,
    pub alternate: ColorCodes,
}

// The numbers of a panel. Depths: 0 to 2 for Eight to Twelve. Orientation: 0 to 7 in the enum's order.
#[repr(C)]
#[derive(Clone, Copy)]
pub struct PanelCodes {
    pub cols: u32,
    pub rows: u32,
    pub tile_w: u32,
    pub tile_h: u32,
    pub full_w: u32,
    pub full_h: u32,
    pub bit_depth: u8,
    pub alpha_bit_depth: u8,
    pub orientation: u8,
    pub has_light: u8,
    pub has_exif: u8,
    pub has_gain: u8,
    pub max_content_light_level: u16,
    pub max_pic_average_light_level: u16,
    pub color: ColorCodes,
    pub gain: GainCodes,
    pub has_visible: u8,
    pub visible_w: u32,
    pub visible_h: u32,
}

// Methods and not From: a panel's codes are no grid, no visible size and no light level, they hold one of each.
impl PanelCodes {
    // The tile grid.
    pub fn dims(self) -> GridDims
        ensures { result ≡ dims_value self }
    {
        GridDims {
            cols: self.cols,
            rows: self.rows,
            tile_w: self.tile_w,
            tile_h: self.tile_h,
            full_w: self.full_w,
            full_h: self.full_h,
        }
    }

    // The visible size, which is there where has_visible is 1.
    pub fn visible_size(self) -> VisibleSize
        ensures { result ≡ visible_value self }
    {
        VisibleSize {
            w: self.visible_w,
            h: self.visible_h,
        }
    }

    // The light level, which is there where has_light is 1.
    pub fn light_level(self) -> ContentLightLevel
        ensures { result ≡ light_value self }
    {
        ContentLightLevel {
            max_content_light_level: self.max_content_light_level,
            max_pic_average_light_level: self.max_pic_average_light_level,
        }
    }
}

// The byte parts of a panel that comes as codes. Those of an absent part are not looked at.
#[derive(Clone, Copy)]
pub struct LentParts<'a> {
    pub color: Tiles<'a>,
    pub alpha: Tiles<'a>,
    pub icc: &'a [u8],
    pub exif: &'a [u8],
    pub gain_hvcc: &'a [u8],
    pub gain_sample: &'a [u8],
    pub gain_xmp: &'a [u8],
    pub gain_tmap: &'a [u8],
    pub alternate_icc: &'a [u8],
}

// What a call answers: 0 and the file's length, or the number of the refusal and 0. C has no Result.
#[repr(C)]
#[derive(Clone, Copy)]
pub struct Told {
    pub refusal: u32,
    pub length: u64,
}

// A length, or the number of a refusal.
impl<E: Into<u8>> From<Result<u64, E>> for Told {
    ghost from_gives = { Tells E.converts };

    fn from(answer: Result<u64, E>) -> Told {
        match answer {
            Ok(length) => Told { refusal: 0, length },
            Err(refusal) => Told {
                refusal: refusal.into() as u32,
                length: 0,
            },
        }
    }
}
