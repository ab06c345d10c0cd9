// Where the TIFF header stands in the Exif bytes.
ghost use Rattle.std.specs.Prelude.{◌≡◌};
ghost use Rattle.heif.specs.Mdat.{tiff_header_offset};

use octets::begins_with;

// How many of the Exif bytes come before the TIFF header: those of the marker, if the Exif begins with it.
pub fn tiff_header_offset(exif: &[u8]) -> u32
    ensures { result ≡ tiff_header_offset exif.now }
{
    if begins_with(exif, b"Exif\0\0") { 6 } else { 0 }
}
