// The types of a panel and of what a call answers.
//
// A `Panel` holds its numbers, and lent slices for its byte parts (decoder configuration records, samples, ICC profiles, Exif, XMP, tone
// map). specs/ holds the pure panel that it stands for, and when two panels agree; the file that a panel has is defined in `heif`.

#![tactic(auto)]

pub mod coded;
pub mod color;
pub mod fmt;
pub mod gain_map;
pub mod metadata;
pub mod when;
pub mod widths;

ghost use Rattle.std.specs.Prelude.{◌≡◌, ◌+◌, ◌<◌};
ghost use Rattle.panel.specs.Form.{form_of, FormWidths};

use crate::color::ColorMetadata;
use crate::fmt::BitDepth;
use crate::gain_map::EncodedGainMap;
use crate::metadata::Metadata;
use std::ops::Range;

// The forms of a file, of which the caller chooses one, each with its code. The definition `form_of` says what each is.
#[derive(Clone, Copy)]
pub enum FileForm {
    Ordinary = 0,
    Wide = 3,
}

impl FileForm {
    // Whether ids and counts of items take 32 bits; else they take 16.
    #[tactic(auto, unfolding(crate::specs::Form::form_of))]
    pub fn is_wide(self) -> bool
        ensures { FormWidths result (form_of self) }
    {
        match self {
            FileForm::Ordinary => false,
            FileForm::Wide => true,
        }
    }
}

// An item's id in the ordinary form. Not a property's position: neither is taken for the other.
#[derive(Clone, Copy)]
pub struct ItemId(pub u16);

// An item's id in the wide form, and in every form as it is counted, before the form says how many bytes it takes. That of an absent item
// may be more than the ordinary form holds.
#[derive(Clone, Copy)]
pub struct WideItemId(pub u32);

// Ids that follow one another: the first, and how many there are. The one behind them fits in 32 bits too.
#[derive(Clone, Copy)]
pub struct Ids {
    pub first: WideItemId,
    pub count: u32,
    ghost fit: { first.0 + count < 4294967296 },
}

impl Ids {
    // Their numbers.
    pub fn range(self) -> Range<u32>
        ensures start { result.start ≡ self.first.0 }
        ensures end { result.end ≡ self.first.0 + self.count }
    {
        self.first.0..self.first.0 + self.count
    }
}

// A property's position in ipco, counted from 1.
#[derive(Clone, Copy)]
pub struct PropertyPosition(pub u8);

// The tile grid: its columns and rows, the size of a tile as it is decoded, and the size of the whole picture.
#[derive(Clone, Copy)]
pub struct GridDims {
    pub cols: u32,
    pub rows: u32,
    pub tile_w: u32,
    pub tile_h: u32,
    pub full_w: u32,
    pub full_h: u32,
}

// The part of each tile that is seen, from its first column and row on, where the encoder padded it.
#[derive(Clone, Copy)]
pub struct VisibleSize {
    pub w: u32,
    pub h: u32,
}

// Which items a file has: how many tiles each picture, and whether Exif, a gain map and a tone map.
#[derive(Clone, Copy)]
pub struct Shape {
    pub tiles: u32,
    pub exif: bool,
    pub gain: bool,
    pub tone: bool,
}

// The samples of a picture's tiles, row by row: the length of each, and their bytes back to back. Those of colour and of alpha are handed
// side by side, as `Panel` has them: a struct of both would be made for each call and taken apart at once.
#[derive(Clone, Copy)]
pub struct Samples<'l, 'b> {
    pub lengths: &'l [u32],
    pub bytes: &'b [u8],
}

// The tiles of a picture: their decoder configuration record, and their samples.
#[derive(Clone, Copy)]
pub struct Tiles<'a> {
    pub hvcc: &'a [u8],
    pub samples: Samples<'a, 'a>,
}

// A panel.
#[derive(Clone, Copy)]
pub struct Panel<'a> {
    pub dims: GridDims,
    pub visible: Option<VisibleSize>,
    pub bit_depth: BitDepth,
    pub alpha_bit_depth: BitDepth,
    pub color: Tiles<'a>,
    pub alpha: Tiles<'a>,
    pub color_meta: ColorMetadata<'a>,
    pub metadata: Metadata<'a>,
    pub gain_map: Option<EncodedGainMap<'a>>,
}

// Why a panel is refused, each by the number of its check, in the order in which they are made: 1, 22, 8, 2 to 6. Of several the first
// counts.
#[derive(Clone, Copy)]
pub enum Refusal {
    // Rows or columns are 0 or above 256.
    GridSide = 1,
    // A visible size is 0 or above the decoded one, or the decoded one above 2,147,483,647.
    VisibleSize = 22,
    // A size of what is seen of a tile, or of the whole picture, is 0, or what is seen of the tiles doesn't cover the picture.
    Cover = 8,
    // A list of lengths has not exactly rows × columns entries.
    TileCount = 2,
    // The lengths do not sum to the bytes lent.
    SampleLengths = 3,
    // The items are more than the form can write: in the ordinary form the last id is above 65,535, in the wide form the tiles are.
    ItemIds = 4,
    // The file would exceed 4,294,967,295 bytes.
    FileLength = 5,
    // The output is shorter than the file.
    OutputLength = 6,
}

// A refusal's number.
impl From<Refusal> for u8 {
    ghost use Rattle.panel.specs.Outcome.{number};

    ghost from_gives = { λ refusal n. n ≡ number refusal };

    fn from(refusal: Refusal) -> u8 {
        refusal as u8
    }
}
