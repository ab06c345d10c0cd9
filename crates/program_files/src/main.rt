// Writes files to standard output, each with the bytes of the output behind it that it leaves as they are: panel P with each value of each
// enum, its alpha at each depth, and a panel with every part, in the ordinary form and in the wide one. Then it prints what the tile lookup
// gives for ids. The file `stdout` beside src/ has what the Rust writes for values of the same names, with the alpha depth put in where it
// is another than the colour's, and made wide where that is asked for; and which part of the files each tile is.

#![tactic(auto)]

mod lookups;
mod names;

use crate::lookups::print_lookups;
use crate::names::write_names;
use panel::color::{Cicp, ColorMetadata, MatrixCoefficients, Primaries, TransferFunction};
use panel::fmt::BitDepth;
use panel::gain_map::EncodedGainMap;
use panel::metadata::{ContentLightLevel, Metadata, Orientation};
use panel::{FileForm, GridDims, Panel, Samples, Tiles};
use std::io;
use write_file::wrap_in_form;

// The code points of the picture and of its alternate.
fn large_gamut() -> Cicp {
    Cicp {
        primaries: Primaries::Bt2020,
        transfer: TransferFunction::Smpte2084,
        matrix: MatrixCoefficients::Bt2020Ncl,
        full_range: false,
    }
}

// Writes a panel with every part, two tiles of 64 × 48 for a picture of 100 × 40, in a form, and the bytes of the output behind its file.
fn write_full(rt: &impl Print, form: FileForm) -> io::Result<()> {
    let panel = Panel {
        dims: GridDims {
            cols: 2,
            rows: 1,
            tile_w: 64,
            tile_h: 48,
            full_w: 100,
            full_h: 40,
        },
        visible: None,
        bit_depth: BitDepth::Ten,
        alpha_bit_depth: BitDepth::Ten,
        color: Tiles {
            hvcc: &[1, 4, 7],
            samples: Samples {
                lengths: &[2, 1],
                bytes: &[0xA1, 0xA2, 0xA3],
            },
        },
        alpha: Tiles {
            hvcc: &[1, 1],
            samples: Samples {
                lengths: &[1, 3],
                bytes: &[0xB1, 0xB2, 0xB3, 0xB4],
            },
        },
        color_meta: ColorMetadata {
            cicp: Some(large_gamut()),
            icc: Some(&[0x11, 0x12, 0x13]),
        },
        metadata: Metadata {
            orientation: Orientation::Transverse,
            content_light_level: Some(ContentLightLevel {
                max_content_light_level: 1000,
                max_pic_average_light_level: 400,
            }),
            exif: Some(&[0x21, 0x22]),
        },
        gain_map: Some(EncodedGainMap {
            hvcc: &[1, 1, 0x33],
            sample: &[0x31, 0x32],
            width: 32,
            height: 16,
            bit_depth: BitDepth::Eight,
            cicp: Cicp {
                primaries: Primaries::Bt709,
                transfer: TransferFunction::Srgb,
                matrix: MatrixCoefficients::Identity,
                full_range: true,
            },
            xmp: &[0x41, 0x42, 0x43],
            tmap: Some(&[0x51]),
            alternate_color: Some(ColorMetadata {
                cicp: Some(large_gamut()),
                icc: Some(&[0x61, 0x62]),
            }),
        }),
    };
    // Four bytes longer than the wide file, as nothing here allocates: what is behind the file is printed too.
    let mut out = [0xEEu8; 1282];
    let _ = wrap_in_form(form, &panel, &mut out);
    rt.write_all(&out)
}

fn main(rt: HostRuntime) -> io::Result<()> {
    write_names(&rt)?;
    write_full(&rt, FileForm::Ordinary)?;
    write_full(&rt, FileForm::Wide)?;
    print_lookups(&rt)
}
