// The fields of a panel sheet, each read off the bytes that are left. The first refusal ends the reading.

#![tactic(auto)]

pub mod code;

ghost use Rattle.std.specs.Prelude.{◌≡◌, ◌+◌, ◌*◌, length, IfOk};
ghost use Rattle.std.specs.Fn.{FnOnceReturnsAtMut};
ghost use Rattle.sheet_fields.specs.Fields.{bytes, number, string, lengths};
ghost use Rattle.sheet_fields.specs.Reads.{Reads, ReadsOptional, sheet_number};

use panel::Refusal;
use panel_codes::UnknownCode;

// Why a sheet is refused, each by its number.
#[derive(Clone, Copy)]
pub enum SheetRefusal {
    // 11: it ends before its fields do.
    Short,
    // 12: its map has a bit that says nothing, or one without the bit that it belongs to.
    BadMap,
    // 13: a code stands for nothing.
    Code,
    // 14: bytes are left over.
    LeftOver,
    // 15: it has more than 12,288 bytes.
    TooLong,
    // 1, 22, 8 or 2 to 6: its panel is refused.
    Panel(Refusal),
}

// The number of a refusal.
impl From<SheetRefusal> for u8 {
    ghost from_gives = { λ refusal n. n ≡ sheet_number refusal };

    fn from(refusal: SheetRefusal) -> u8 {
        match refusal {
            SheetRefusal::Short => 11,
            SheetRefusal::BadMap => 12,
            SheetRefusal::Code => 13,
            SheetRefusal::LeftOver => 14,
            SheetRefusal::TooLong => 15,
            SheetRefusal::Panel(refusal) => u8::from(refusal),
        }
    }
}

impl From<UnknownCode> for SheetRefusal {
    ghost use Rattle.sheet_fields.specs.declared.SheetRefusal.TheVariants.{Code};

    ghost from_gives = { λ _ e. e ≡ Code };

    fn from(_code: UnknownCode) -> SheetRefusal {
        SheetRefusal::Code
    }
}

impl From<Refusal> for SheetRefusal {
    ghost use Rattle.sheet_fields.specs.declared.SheetRefusal.TheVariants.{Panel};

    ghost from_gives = { λ refusal e. e ≡ Panel refusal };

    fn from(refusal: Refusal) -> SheetRefusal {
        SheetRefusal::Panel(refusal)
    }
}

// A sheet that is being read.
#[derive(Drop)]
pub struct SheetReader<'a> {
    // The bytes that are not read yet.
    pub left: &'a [u8],
}

impl<'a> SheetReader<'a> {
    // The next n bytes.
    #[tactic(auto, unfolding(crate::specs::Fields::bytes))]
    pub fn bytes(&mut self, n: usize) -> Result<&'a [u8], SheetRefusal>
        ensures { Reads (bytes n) (λ x. x.now) self.old result self.new }
    {
        self.left.split_off(..n).ok_or(SheetRefusal::Short)
    }

    // The next N bytes, as an array.
    #[tactic(auto, unfolding(crate::specs::Fields::bytes))]
    fn array<const N: usize>(&mut self) -> Result<[u8; N], SheetRefusal>
        ensures { Reads (bytes N) (λ x. x) self.old result self.new }
    {
        let (front, rest) = self.left.split_first_chunk().ok_or(SheetRefusal::Short)?;
        self.left = rest;
        Ok(*front)
    }

    // u8, u16 and u32 are three: one over the type of the number would need a trait of our own over from_be_bytes, with three impls, which
    // is no plainer.

    // A number of one byte.
    #[tactic(auto, unfolding(crate::specs::Fields::number))]
    pub fn u8(&mut self) -> Result<u8, SheetRefusal>
        ensures { Reads (number 1) (λ n. n) self.old result self.new }
    {
        Ok(u8::from_be_bytes(self.array()?))
    }

    // A number of 16 bits, the higher byte first.
    #[tactic(auto, unfolding(crate::specs::Fields::number))]
    pub fn u16(&mut self) -> Result<u16, SheetRefusal>
        ensures { Reads (number 2) (λ n. n) self.old result self.new }
    {
        Ok(u16::from_be_bytes(self.array()?))
    }

    // A number of 32 bits, the highest byte first.
    #[tactic(auto, unfolding(crate::specs::Fields::number))]
    pub fn u32(&mut self) -> Result<u32, SheetRefusal>
        ensures { Reads (number 4) (λ n. n) self.old result self.new }
    {
        Ok(u32::from_be_bytes(self.array()?))
    }

    // A byte string: a length of 32 bits, and so many bytes.
    #[tactic(auto, unfolding(crate::specs::Fields::string))]
    pub fn string(&mut self) -> Result<&'a [u8], SheetRefusal>
        ensures { Reads string (λ x. x.now) self.old result self.new }
    {
        let n = self.u32()?;
        self.bytes(n as usize)
    }

    // What `read` reads, if its bit stands, else nothing.
    pub fn optional<T, F: FnOnce(&mut SheetReader<'a>) -> Result<T, SheetRefusal>>(
        &mut self,
        stands: bool,
        read: F,
    ) -> Result<Option<T>, SheetRefusal>
        requires { F.IsAlwaysCallable read }
        ensures { ReadsOptional stands (λ r new. FnOnceReturnsAtMut F.FnOnce read self.old r new) self.old result self.new }
    {
        // By `if`: of `stands.then(|| read(self))` the check of borrows does not cover the closure, since F's bound names a lifetime.
        if stands {
            Ok(Some(read(self)?))
        } else {
            Ok(None)
        }
    }

    // Lengths of 32 bits, as many as the list has entries, put into it.
    #[tactic(auto, unfolding(crate::specs::Fields::lengths, crate::specs::Fields::bytes))]
    pub fn lengths<'l>(&mut self, list: &'l mut [u32]) -> Result<&'l [u32], SheetRefusal>
        ensures reads { Reads (lengths (length list.old)) (λ l. l.now) self.old result self.new }
        ensures count { IfOk result (λ l. length l.now ≡ length list.old) }
        ensures left { IfOk result (λ l. length self.new.left.now + 4 * length list.old ≡ length self.old.left.now) }
    {
        let (words, _) = self.bytes(4 * list.len())?.as_chunks();
        // By index: of a list that is written through an adapter of iter_mut, as `zip`, the library says nothing.
        for (i, word) in words.iter().enumerate() {
            list[i] = u32::from_be_bytes(*word);
        }
        Ok(list)
    }
}
