// What a form of the file decides of a box: the bytes of a count of items, and the version.
ghost use Rattle.std.specs.Prelude.{◌≡◌, ◌+◌, ◌<◌};
ghost use Rattle.octets.specs.Numbers.{◌‖◌, be};
ghost use Rattle.octets.specs.Stores.{Room, Wrote};
ghost use Rattle.panel.specs.Form.{form_of};

use octets::Output;
use panel::FileForm;

// Writes a count of items. Check 4 sees to it that the ordinary form cuts none. It is not one function with `write_id`, nor with `write_side`
// of a grid's descriptor, which also take four bytes or two: each is held to a width of another definition.
pub fn write_count(out: &mut Output, form: FileForm, n: u32)
    requires { Room out.old (form_of form).count }
    ensures { Wrote out.old (form_of form).count (be (form_of form).count n) out.new }
{
    if form.is_wide() {
        out.w32(n);
    } else {
        out.w16((n % 65536) as u16);
    }
}

// The version of a box that holds ids or counts of items, from the one that it has in the ordinary form.
fn version(form: FileForm, ordinary: u8) -> u8
    requires { ordinary < 255 }
    ensures { result ≡ ordinary + (form_of form).step }
{
    ordinary + u8::from(form.is_wide())
}

// Writes the head of a box that holds ids or counts of items; ver is its version in the ordinary form.
pub fn write_item_box(
    out: &mut Output,
    form: FileForm,
    size: u32,
    cc: &[u8; 4],
    ver: u8,
    flags: u32,
)
    requires room { Room out.old 12 }
    requires version_fits { ver < 255 }
    ensures { Wrote out.old 12 (be 4 size ‖ cc.now ‖ be 1 (ver + (form_of form).step) ‖ be 3 flags) out.new }
{
    out.write_fullbox(size, cc, version(form, ver), flags);
}
