// The gain map of a panel.
use crate::color::{Cicp, ColorMetadata};
use crate::fmt::BitDepth;

// A gain map: its record, its one sample and its XMP, and the tone map's bytes and the alternate colour where there are any.
#[derive(Clone, Copy)]
pub struct EncodedGainMap<'a> {
    pub hvcc: &'a [u8],
    pub sample: &'a [u8],
    pub width: u32,
    pub height: u32,
    pub bit_depth: BitDepth,
    pub cicp: Cicp,
    pub xmp: &'a [u8],
    pub tmap: Option<&'a [u8]>,
    pub alternate_color: Option<ColorMetadata<'a>>,
}
