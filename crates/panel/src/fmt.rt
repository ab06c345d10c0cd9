// The bit depth of samples, each with its bit count.
ghost use Rattle.std.specs.Prelude.{◌≡◌};
ghost use Rattle.panel.specs.Types.{bits};

#[derive(Clone, Copy)]
pub enum BitDepth {
    Eight = 8,
    Ten = 10,
    Twelve = 12,
}

impl BitDepth {
    // The bit count.
    pub fn bits(self) -> u8
        ensures { result ≡ bits self }
    {
        self as u8
    }
}
