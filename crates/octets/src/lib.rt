// Numbers and bytes written into a lent buffer, and what bytes begin with.
//
// specs/ holds the definitions of numbers, boxes and writes, and proofs/ their laws, once for all crates.
#![tactic(auto)]

ghost use Rattle.std.specs.Prelude.{◌≡◌, ◌+◌, ◌<◌, [], length};
ghost use Rattle.octets.specs.Numbers.{◌‖◌, be, total, ◌begins_with◌};
ghost use Rattle.octets.specs.Stores.{Room, Wrote};

// Copies bytes into a room that is as long. By index: the library's `copy_from_slice` is memcpy or memmove of the C library, which a
// freestanding program that links the archive need not have; and of a list that is written through an adapter of iter_mut, as `zip`, the
// library says nothing.
fn copy(room: &mut [u8], src: &[u8])
    requires { length room.old ≡ length src.now }
    ensures { room.new ≡ src.now }
{
    for (i, &byte) in src.iter().enumerate() {
        room[i] = byte;
    }
}

// A lent buffer, and the position from which it is written on. Each function that writes raises the position behind what it wrote.
//
// Its fields are open, so that a caller which gives its buffer into it learns from a field what the buffer holds at the end.
#[derive(Drop)]
pub struct Output<'a> {
    pub bytes: &'a mut [u8],
    pub at: usize,
}

// w8, w16 and w32 are three and not one over the type of the number, which would be no plainer for a caller: a box's definition gives each
// field's width, and so does the name of each call, where the type of an argument would have to be looked up.
impl<'a> Output<'a> {
    // A buffer, to be written from its front.
    pub fn new(bytes: &'a mut [u8]) -> Output<'a>
        ensures bytes { result.bytes.now ≡ bytes.old }
        ensures at { result.at ≡ 0 }
        ensures same { result.bytes.ghost_name ≡ bytes.entry.ghost_name }
    {
        Output { bytes, at: 0 }
    }

    // Writes bytes as they are.
    pub fn put(&mut self, src: &[u8])
        requires { Room self.old (length src.now) }
        ensures { Wrote self.old (length src.now) src.now self.new }
    {
        let end = self.at + src.len();
        copy(&mut self.bytes[self.at..end], src);
        self.at = end;
    }

    // Writes one byte.
    pub fn w8(&mut self, v: u8)
        requires { Room self.old 1 }
        ensures { Wrote self.old 1 (be 1 v) self.new }
    {
        self.put(&[v]);
    }

    // Writes a number of 16 bits, the higher byte first.
    pub fn w16(&mut self, v: u16)
        requires { Room self.old 2 }
        ensures { Wrote self.old 2 (be 2 v) self.new }
    {
        self.put(&v.to_be_bytes());
    }

    // Writes a number of 32 bits, the highest byte first.
    pub fn w32(&mut self, v: u32)
        requires { Room self.old 4 }
        ensures { Wrote self.old 4 (be 4 v) self.new }
    {
        self.put(&v.to_be_bytes());
    }

    // Writes the head of a box: its whole size, which the box's writer is handed as a number or works out, and its type.
    pub fn write_box(&mut self, size: u32, cc: &[u8; 4])
        requires { Room self.old 8 }
        ensures { Wrote self.old 8 (be 4 size ‖ cc.now) self.new }
    {
        self.w32(size);
        self.put(cc);
    }

    // Writes the head of a box with a version and flags.
    pub fn write_fullbox(&mut self, size: u32, cc: &[u8; 4], ver: u8, flags: u32)
        requires { Room self.old 12 }
        ensures { Wrote self.old 12 (be 4 size ‖ cc.now ‖ be 1 ver ‖ be 3 flags) self.new }
    {
        self.write_box(size, cc);
        self.w8(ver);
        self.put(&flags.to_be_bytes()[1..]);
    }
}

// The size of a box with a body of so many bytes behind `head`.
pub fn size_of(head: u32, len: usize) -> u32
    requires { head + len < 4294967296 }
    ensures { result ≡ head + len }
{
    head + len as u32
}

// The sum of lengths. Memory holds too few of them to wrap 128 bits.
pub fn total(lengths: &[u32]) -> u128
    ensures { result ≡ total lengths.now }
{
    lengths.iter().map(|&n| u128::from(n)).sum()
}

// Whether bytes begin with others.
pub fn begins_with(bytes: &[u8], front: &[u8]) -> bool
    ensures { result ≡ (bytes.now begins_with front.now) }
{
    bytes.starts_with(front)
}
