// Where the payloads of a file lie.

// How many bytes the gain map's payloads have: the sample, the XMP and the tone map, 0 where there is none.
#[derive(Clone, Copy)]
pub struct PayloadLengths {
    pub sample: u32,
    pub xmp: u32,
    pub tmap: u32,
}

// The length of a grid's descriptor in idat; where the colour samples, the alpha samples and the payloads behind them begin; and how many
// bytes these payloads have.
#[derive(Clone, Copy)]
pub struct Payloads {
    pub descriptor: u32,
    pub color: u32,
    pub alpha: u32,
    pub other: u32,
    pub exif: u32,
    pub gain: PayloadLengths,
}
