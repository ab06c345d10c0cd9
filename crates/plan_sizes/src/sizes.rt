// The sizes of a file's boxes.
ghost use Rattle.std.specs.Prelude.{◌+◌, ◌^◌, ◌<◌};

// The whole size of each box; what is counted in 128 bits is far below what 128 bits hold. That they are the boxes of a panel in a form is
// said by `Sized`; a struct that held it would have to hold the panel and the form too.
#[derive(Clone, Copy)]
pub struct Sizes {
    pub ftyp: u32,
    pub iloc: u32,
    pub iinf: u32,
    pub iref: u32,
    pub ipma: u32,
    pub idat: u32,
    pub ipco: u128,
    pub iprp: u128,
    pub meta: u128,
    pub mdat: u128,
    ghost small: { meta + mdat < 2 ^ 100 },
}
