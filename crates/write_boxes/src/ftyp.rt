// ftyp: the brands of a file.
ghost use Rattle.std.specs.Prelude.{◌≡◌, cond, [], ◌∷◌, ◌+◌};
ghost use Rattle.octets.specs.Numbers.{◌‖◌, be, text};
ghost use Rattle.octets.specs.Stores.{Room, Wrote, Boxed};
ghost use Rattle.panel.specs.Parts.{given};
ghost use Rattle.heif.specs.Ftyp.{ftyp, ftyp_size, brand};

use octets::Output;
use plan_items::brands::adds_heix;

// The brand of a picture.
fn write_brand(out: &mut Output, rext: bool)
    requires { Room out.old 4 }
    ensures { Wrote out.old 4 (brand rext) out.new }
{
    out.put(if rext { b"heix" } else { b"heic" });
}

// The brand, the version 0, the brand again, and the two that every file has.
fn write_brands(out: &mut Output, color: bool)
    requires { Room out.old 20 }
    ensures { Wrote out.old 20 (brand color ‖ be 4 0 ‖ brand color ‖ text "mif1" ‖ text "miaf") out.new }
{
    write_brand(out, color);
    out.w32(0);
    write_brand(out, color);
    out.put(b"mif1miaf");
}

// One of the brands that only some files have, where this file has it.
fn write_extra_brand(out: &mut Output, wanted: bool, brand: &[u8; 4])
    requires { Room out.old (cond wanted 4 0) }
    ensures { Wrote out.old (cond wanted 4 0) (given wanted brand.now) out.new }
{
    if wanted {
        out.put(brand);
    }
}

// ftyp: the brands, by which a reader knows what the file asks of it. color and gain: the record is of the range extensions' profile;
// tone: there is a tone map. The three are handed as the definition `ftyp` takes them.
pub fn write_ftyp(out: &mut Output, size: u32, color: bool, gain: bool, tone: bool)
    requires room { Room out.old (8 + ftyp_size color gain tone) }
    requires whole { size ≡ 8 + ftyp_size color gain tone }
    ensures { Boxed out.old (8 + ftyp_size color gain tone) (ftyp color gain tone ∷ []) out.new }
{
    out.write_box(size, b"ftyp");
    write_brands(out, color);
    write_extra_brand(out, adds_heix(color, gain), b"heix");
    write_extra_brand(out, tone, b"tmap");
}
