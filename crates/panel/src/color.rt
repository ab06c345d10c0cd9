// Colour: the code points of ISO/IEC 23091-2 (CICP), and how a picture states its colour.
ghost use Rattle.std.specs.Prelude.{◌≡◌};
ghost use Rattle.panel.specs.Types.{unspecified};

// Colour primaries (ISO/IEC 23091-2, table 2), each with its code point.
#[derive(Clone, Copy)]
pub enum Primaries {
    Reserved = 0,
    Bt709 = 1,
    Unspecified = 2,
    Bt470M = 4,
    Bt470Bg = 5,
    Bt601 = 6,
    Smpte240 = 7,
    GenericFilm = 8,
    Bt2020 = 9,
    Xyz = 10,
    Smpte431 = 11,
    Smpte432 = 12,
    Ebu3213 = 22,
}

// Transfer characteristics (ISO/IEC 23091-2, table 3), each with its code point. It and the next are two tables of the standard, whose
// numbers name other things.
#[derive(Clone, Copy)]
pub enum TransferFunction {
    Reserved = 0,
    Bt709 = 1,
    Unspecified = 2,
    Bt470M = 4,
    Bt470Bg = 5,
    Bt601 = 6,
    Smpte240 = 7,
    Linear = 8,
    Log100 = 9,
    Log100sqrt10 = 10,
    Iec61966 = 11,
    Bt1361 = 12,
    Srgb = 13,
    Bt202010bit = 14,
    Bt202012bit = 15,
    Smpte2084 = 16,
    Smpte428 = 17,
    Hlg = 18,
}

// Matrix coefficients (ISO/IEC 23091-2, table 4), each with its code point.
#[derive(Clone, Copy)]
pub enum MatrixCoefficients {
    Identity = 0,
    Bt709 = 1,
    Unspecified = 2,
    Reserved = 3,
    Fcc = 4,
    Bt470Bg = 5,
    Smpte170m = 6,
    Smpte240m = 7,
    YCgCo = 8,
    Bt2020Ncl = 9,
    Bt2020Cl = 10,
    Smpte2085 = 11,
    ChromaticityDerivedNCL = 12,
    ChromaticityDerivedCL = 13,
    ICtCp = 14,
    IPtC2 = 15,
    YCgCoRe = 16,
    YCgCoRo = 17,
}

// A colour encoding by code points.
#[derive(Clone, Copy)]
pub struct Cicp {
    pub primaries: Primaries,
    pub transfer: TransferFunction,
    pub matrix: MatrixCoefficients,
    pub full_range: bool,
}

impl Cicp {
    // Nothing stated but the full range.
    pub fn unspecified() -> Self
        ensures { result ≡ unspecified }
    {
        Cicp {
            primaries: Primaries::Unspecified,
            transfer: TransferFunction::Unspecified,
            matrix: MatrixCoefficients::Unspecified,
            full_range: true,
        }
    }
}

// How a picture states its colour: by code points, by an ICC profile, by both, or not at all.
#[derive(Clone, Copy)]
pub struct ColorMetadata<'a> {
    pub cicp: Option<Cicp>,
    pub icc: Option<&'a [u8]>,
}
