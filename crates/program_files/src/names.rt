// Panel P with each value of each enum, named as a caller names it. The lists are this test's own and not those that the codes of a sheet
// are looked up in (`every` of panel), so that a value left out there is still written here.
use panel::color::{Cicp, ColorMetadata, MatrixCoefficients, Primaries, TransferFunction};
use panel::fmt::BitDepth;
use panel::metadata::{Metadata, Orientation};
use panel::{GridDims, Panel, Samples, Tiles};
use std::io;
use write_file::wrap_hevc_grid_with_alpha;

// Writes panel P (one tile of 64 × 64, no option) with these depths, this colour and orientation.
fn write(
    rt: &impl Print,
    bit_depth: BitDepth,
    alpha_bit_depth: BitDepth,
    cicp: Option<Cicp>,
    orientation: Orientation,
) -> io::Result<()> {
    let panel = Panel {
        dims: GridDims {
            cols: 1,
            rows: 1,
            tile_w: 64,
            tile_h: 64,
            full_w: 64,
            full_h: 64,
        },
        visible: None,
        bit_depth,
        alpha_bit_depth,
        color: Tiles {
            hvcc: &[1, 1],
            samples: Samples {
                lengths: &[1],
                bytes: &[0xAA],
            },
        },
        alpha: Tiles {
            hvcc: &[1, 4],
            samples: Samples {
                lengths: &[1],
                bytes: &[0xBB],
            },
        },
        color_meta: ColorMetadata { cicp, icc: None },
        metadata: Metadata {
            orientation,
            content_light_level: None,
            exif: None,
        },
        gain_map: None,
    };
    // Longer than each of these files, as nothing here allocates: what is behind a file is printed too.
    let mut out = [0xEEu8; 600];
    let _ = wrap_hevc_grid_with_alpha(&panel, &mut out);
    rt.write_all(&out)
}

// Every pair of depths, the colour's first.
fn depths(rt: &impl Print) -> io::Result<()> {
    let depths = [BitDepth::Eight, BitDepth::Ten, BitDepth::Twelve];
    for color in depths {
        for alpha in depths {
            write(rt, color, alpha, None, Orientation::Normal)?;
        }
    }
    Ok(())
}

// Each code point, three to a file; behind the last primaries stands Unspecified.
fn colors(rt: &impl Print) -> io::Result<()> {
    use MatrixCoefficients as M;
    use Primaries as P;
    use TransferFunction as T;
    let colors = [
        (P::Reserved, T::Reserved, M::Identity),
        (P::Bt709, T::Bt709, M::Bt709),
        (P::Unspecified, T::Unspecified, M::Unspecified),
        (P::Bt470M, T::Bt470M, M::Reserved),
        (P::Bt470Bg, T::Bt470Bg, M::Fcc),
        (P::Bt601, T::Bt601, M::Bt470Bg),
        (P::Smpte240, T::Smpte240, M::Smpte170m),
        (P::GenericFilm, T::Linear, M::Smpte240m),
        (P::Bt2020, T::Log100, M::YCgCo),
        (P::Xyz, T::Log100sqrt10, M::Bt2020Ncl),
        (P::Smpte431, T::Iec61966, M::Bt2020Cl),
        (P::Smpte432, T::Bt1361, M::Smpte2085),
        (P::Ebu3213, T::Srgb, M::ChromaticityDerivedNCL),
        (P::Unspecified, T::Bt202010bit, M::ChromaticityDerivedCL),
        (P::Unspecified, T::Bt202012bit, M::ICtCp),
        (P::Unspecified, T::Smpte2084, M::IPtC2),
        (P::Unspecified, T::Smpte428, M::YCgCoRe),
        (P::Unspecified, T::Hlg, M::YCgCoRo),
    ];
    for (primaries, transfer, matrix) in colors {
        let cicp = Cicp {
            primaries,
            transfer,
            matrix,
            full_range: true,
        };
        write(
            rt,
            BitDepth::Eight,
            BitDepth::Eight,
            Some(cicp),
            Orientation::Normal,
        )?;
    }
    Ok(())
}

// Each orientation.
fn orientations(rt: &impl Print) -> io::Result<()> {
    let orientations = [
        Orientation::Normal,
        Orientation::FlipH,
        Orientation::Rotate180,
        Orientation::FlipV,
        Orientation::Transpose,
        Orientation::Rotate90,
        Orientation::Transverse,
        Orientation::Rotate270,
    ];
    for orientation in orientations {
        write(rt, BitDepth::Eight, BitDepth::Eight, None, orientation)?;
    }
    Ok(())
}

// Writes the file of each, with the rest of the output behind it.
pub(crate) fn write_names(rt: &impl Print) -> io::Result<()> {
    depths(rt)?;
    colors(rt)?;
    orientations(rt)
}
