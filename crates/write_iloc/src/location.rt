// The entries of iloc.
ghost use Rattle.std.specs.Prelude.{◌≡◌, cond, is_some, option_map, option_to_list, ◌+◌, ◌*◌, ◌≤◌, length};
ghost use mathlib.Core.List.{flat_map};
ghost use Rattle.octets.specs.Numbers.{◌‖◌, be, total};
ghost use Rattle.octets.specs.Stores.{Room, Wrote};
ghost use Rattle.panel.specs.Form.{ordinary, wide, form_of};
ghost use Rattle.heif.specs.Iloc.{entry, entry_size};
ghost use Rattle.write_iloc.specs.Spans.{location, entries};
ghost use Rattle.write_iloc.specs.Locations.{method_code, location_of};

use octets::Output;
use panel::{FileForm, Ids, ItemId, WideItemId};
use write_ids::{ordinary_id, write_ordinary_id, write_wide_id};

// The construction method of a payload: what its offset is counted from, the file's first byte or that of idat's body.
#[derive(Clone, Copy)]
pub(crate) enum Method {
    File = 0,
    Idat = 1,
}

// A construction method's number.
impl From<Method> for u16 {
    ghost use Rattle.write_iloc.specs.Locations.{method_code};

    ghost from_gives = { λ method n. n ≡ method_code method };

    fn from(method: Method) -> u16 {
        method as u16
    }
}

// Where an item's payload lies.
#[derive(Clone, Copy)]
pub(crate) struct Location {
    pub id: WideItemId,
    pub method: Method,
    pub offset: u32,
    pub size: u32,
}

// Items whose ids follow one another, and whose payloads lie back to back in the file from `offset` on, up to an end that 32 bits hold.
#[derive(Clone, Copy)]
pub(crate) struct Batch<'a> {
    pub ids: Ids,
    pub offset: u32,
    pub lengths: &'a [u32],
    ghost counted: { ids.count ≡ length lengths.now },
    ghost end_fits: { offset + total lengths.now ≤ 4294967295 },
}

// What stands behind an item's id in its entry: its construction method, data reference 0, and its one extent.
fn write_extent(out: &mut Output, method: Method, offset: u32, size: u32)
    requires { Room out.old 14 }
    ensures { Wrote out.old 14 (be 2 (method_code method) ‖ be 2 0 ‖ be 2 1 ‖ be 4 offset ‖ be 4 size) out.new }
{
    out.w16(u16::from(method));
    out.w16(0);
    out.w16(1);
    out.w32(offset);
    out.w32(size);
}

// The entry of an item in the ordinary form. It takes no `Location`, whose id is not yet one of 16 bits.
fn write_ordinary_location(out: &mut Output, id: ItemId, method: Method, offset: u32, size: u32)
    requires { Room out.old (entry_size ordinary) }
    ensures { Wrote out.old (entry_size ordinary) (entry ordinary (location id.0 (method_code method) offset size)) out.new }
{
    write_ordinary_id(out, id);
    write_extent(out, method, offset, size);
}

// The entry of an item in the wide form, whose id has 32 bits.
fn write_wide_location(out: &mut Output, id: WideItemId, method: Method, offset: u32, size: u32)
    requires { Room out.old (entry_size wide) }
    ensures { Wrote out.old (entry_size wide) (entry wide (location id.0 (method_code method) offset size)) out.new }
{
    write_wide_id(out, id);
    write_extent(out, method, offset, size);
}

// The entry of an item as the form has it.
#[tactic(auto, unfolding(panel::specs::Form::form_of))]
pub(crate) fn write_location(out: &mut Output, form: FileForm, l: Location)
    requires { Room out.old (entry_size (form_of form)) }
    ensures { Wrote out.old (entry_size (form_of form)) (entry (form_of form) (location_of l)) out.new }
{
    match form {
        FileForm::Ordinary => {
            write_ordinary_location(out, ordinary_id(l.id), l.method, l.offset, l.size);
        }
        FileForm::Wide => write_wide_location(out, l.id, l.method, l.offset, l.size),
    }
}

// The entry of an item, where there is one.
pub(crate) fn write_given_location(out: &mut Output, form: FileForm, l: Option<Location>)
    requires { Room out.old (cond (is_some l) (entry_size (form_of form)) 0) }
    ensures { Wrote out.old (cond (is_some l) (entry_size (form_of form)) 0) (flat_map (entry (form_of form)) (option_to_list (option_map location_of l))) out.new }
{
    if let Some(l) = l {
        write_location(out, form, l);
    }
}

// The entries of a batch's items. The position that runs through their payloads is held in 32 bits: it ends where the batch does.
pub(crate) fn write_file_locations(out: &mut Output, form: FileForm, batch: Batch)
    requires { Room out.old (entry_size (form_of form) * length batch.lengths.now) }
    ensures { let b = batch.entry in Wrote out.old (entry_size (form_of form) * length b.lengths.now) (entries (form_of form) b.ids.first.0 b.offset b.lengths.now) out.new }
{
    let mut offset = batch.offset;
    for (id, &size) in batch.ids.range().zip(batch.lengths) {
        write_location(
            out,
            form,
            Location {
                id: WideItemId(id),
                method: Method::File,
                offset,
                size,
            },
        );
        offset += size;
    }
}
