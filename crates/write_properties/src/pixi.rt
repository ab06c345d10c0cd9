// The property pixi.
ghost use Rattle.std.specs.Prelude.{[], ◌∷◌, ◌<◌};
ghost use Rattle.octets.specs.Stores.{Room, Boxed};
ghost use Rattle.heif.specs.Pixi.{pixi, pixi_size};

use octets::Output;

// pixi: the bits of each channel.
pub(crate) fn write_pixi<const CHANNELS: usize>(out: &mut Output, bits: u8)
    requires room { Room out.old (pixi_size CHANNELS) }
    requires count_fits { CHANNELS < 256 }
    ensures { Boxed out.old (pixi_size CHANNELS) (pixi CHANNELS bits ∷ []) out.new }
{
    out.write_fullbox(13 + CHANNELS as u32, b"pixi", 0, 0);
    out.w8(CHANNELS as u8);
    out.put(&[bits; CHANNELS]);
}
