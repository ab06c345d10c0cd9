// Values with codes: the code of each, and all values in the order of their codes.
ghost use Rattle.std.specs.Prelude.{◌≡◌, List, ℕ};

use crate::FileForm;
use crate::color::{MatrixCoefficients, Primaries, TransferFunction};
use crate::fmt::BitDepth;
use crate::metadata::Orientation;

// A kind of values, each with a code.
pub trait Coded: Copy + 'static {
    ghost code: { Self → ℕ };

    ghost every: { List Self };

    // The code of a value.
    fn code(self) -> u16
        ensures { result ≡ code self };

    // All values, in the order of their codes.
    fn every() -> &'static [Self]
        ensures { result.now ≡ every };
}

impl Coded for BitDepth {
    ghost use Rattle.panel.specs.Codes.{depth_code, every_depth};

    ghost code = { depth_code };

    ghost every = { every_depth };

    // By `match`, since the number of a depth is its bit count.
    fn code(self) -> u16 {
        match self {
            BitDepth::Eight => 0,
            BitDepth::Ten => 1,
            BitDepth::Twelve => 2,
        }
    }

    #[tactic(auto, unfolding(crate::specs::Codes::every_depth))]
    fn every() -> &'static [BitDepth] {
        &[BitDepth::Eight, BitDepth::Ten, BitDepth::Twelve]
    }
}

impl Coded for Orientation {
    ghost use Rattle.panel.specs.Codes.{orientation_code, every_orientation};

    ghost code = { orientation_code };

    ghost every = { every_orientation };

    fn code(self) -> u16 {
        self as u16
    }

    #[tactic(auto, unfolding(crate::specs::Codes::every_orientation))]
    fn every() -> &'static [Orientation] {
        &[
            Orientation::Normal,
            Orientation::FlipH,
            Orientation::Rotate180,
            Orientation::FlipV,
            Orientation::Transpose,
            Orientation::Rotate90,
            Orientation::Transverse,
            Orientation::Rotate270,
        ]
    }
}

impl Coded for FileForm {
    ghost use Rattle.panel.specs.Codes.{form_code, every_form};

    ghost code = { form_code };

    ghost every = { every_form };

    fn code(self) -> u16 {
        self as u16
    }

    #[tactic(auto, unfolding(crate::specs::Codes::every_form))]
    fn every() -> &'static [FileForm] {
        &[FileForm::Ordinary, FileForm::Wide]
    }
}

impl Coded for bool {
    ghost use Rattle.panel.specs.Codes.{bool_code, every_bool};

    ghost code = { bool_code };

    ghost every = { every_bool };

    fn code(self) -> u16 {
        self as u16
    }

    #[tactic(auto, unfolding(crate::specs::Codes::every_bool))]
    fn every() -> &'static [bool] {
        &[false, true]
    }
}

impl Coded for Primaries {
    ghost use Rattle.panel.specs.Types.{primaries_code};
    ghost use Rattle.panel.specs.Codes.{every_primaries};

    ghost code = { primaries_code };

    ghost every = { every_primaries };

    fn code(self) -> u16 {
        self as u16
    }

    fn every() -> &'static [Primaries] {
        &[
            Primaries::Reserved,
            Primaries::Bt709,
            Primaries::Unspecified,
            Primaries::Bt470M,
            Primaries::Bt470Bg,
            Primaries::Bt601,
            Primaries::Smpte240,
            Primaries::GenericFilm,
            Primaries::Bt2020,
            Primaries::Xyz,
            Primaries::Smpte431,
            Primaries::Smpte432,
            Primaries::Ebu3213,
        ]
    }
}

impl Coded for TransferFunction {
    ghost use Rattle.panel.specs.Types.{transfer_code};
    ghost use Rattle.panel.specs.Codes.{every_transfer};

    ghost code = { transfer_code };

    ghost every = { every_transfer };

    fn code(self) -> u16 {
        self as u16
    }

    fn every() -> &'static [TransferFunction] {
        &[
            TransferFunction::Reserved,
            TransferFunction::Bt709,
            TransferFunction::Unspecified,
            TransferFunction::Bt470M,
            TransferFunction::Bt470Bg,
            TransferFunction::Bt601,
            TransferFunction::Smpte240,
            TransferFunction::Linear,
            TransferFunction::Log100,
            TransferFunction::Log100sqrt10,
            TransferFunction::Iec61966,
            TransferFunction::Bt1361,
            TransferFunction::Srgb,
            TransferFunction::Bt202010bit,
            TransferFunction::Bt202012bit,
            TransferFunction::Smpte2084,
            TransferFunction::Smpte428,
            TransferFunction::Hlg,
        ]
    }
}

impl Coded for MatrixCoefficients {
    ghost use Rattle.panel.specs.Types.{matrix_code};
    ghost use Rattle.panel.specs.Codes.{every_matrix};

    ghost code = { matrix_code };

    ghost every = { every_matrix };

    fn code(self) -> u16 {
        self as u16
    }

    fn every() -> &'static [MatrixCoefficients] {
        &[
            MatrixCoefficients::Identity,
            MatrixCoefficients::Bt709,
            MatrixCoefficients::Unspecified,
            MatrixCoefficients::Reserved,
            MatrixCoefficients::Fcc,
            MatrixCoefficients::Bt470Bg,
            MatrixCoefficients::Smpte170m,
            MatrixCoefficients::Smpte240m,
            MatrixCoefficients::YCgCo,
            MatrixCoefficients::Bt2020Ncl,
            MatrixCoefficients::Bt2020Cl,
            MatrixCoefficients::Smpte2085,
            MatrixCoefficients::ChromaticityDerivedNCL,
            MatrixCoefficients::ChromaticityDerivedCL,
            MatrixCoefficients::ICtCp,
            MatrixCoefficients::IPtC2,
            MatrixCoefficients::YCgCoRe,
            MatrixCoefficients::YCgCoRo,
        ]
    }
}
