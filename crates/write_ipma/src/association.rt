// The entries of ipma: an item's id, how many properties it is associated with, and which.
ghost use mathlib.Core.List.{flat_map};
ghost use Rattle.std.specs.Prelude.{◌≡◌, cond, ◌*◌, length, is_some, option_map, option_to_list};
ghost use Rattle.octets.specs.Numbers.{be};
ghost use Rattle.octets.specs.Stores.{Room, Wrote};
ghost use Rattle.panel.specs.Form.{ordinary, wide, form_of};
ghost use Rattle.heif.specs.Ipma.{◌with◌, each, association, association_size};
ghost use Rattle.plan_runs.specs.Lists.{listed};

use octets::Output;
use panel::{FileForm, Ids, ItemId, WideItemId};
use plan_runs::lists::{Associated, count};
use write_ids::{ordinary_id, write_ordinary_id, write_wide_id};
use write_ipma_lists::write_list;

// How many associations a list has, in the 8 bits that an entry has for it.
pub(crate) fn entry_count(list: &[Associated]) -> u8
    ensures { be 1 result ≡ be 1 (length (listed list.now)) }
{
    (count(list) % 256) as u8
}

// An item's entry in the ordinary form, whose id has 16 bits: `n` is the list's count, which the entries of all tiles share.
fn write_ordinary_association(out: &mut Output, id: ItemId, n: u8, list: &[Associated])
    requires room { Room out.old (association_size ordinary (length (listed list.now))) }
    requires count { be 1 n ≡ be 1 (length (listed list.now)) }
    ensures { Wrote out.old (association_size ordinary (length (listed list.now))) (association ordinary (id.0 with listed list.now)) out.new }
{
    write_ordinary_id(out, id);
    out.w8(n);
    write_list(out, list);
}

// An item's entry in the wide form, whose id has 32 bits.
fn write_wide_association(out: &mut Output, id: WideItemId, n: u8, list: &[Associated])
    requires room { Room out.old (association_size wide (length (listed list.now))) }
    requires count { be 1 n ≡ be 1 (length (listed list.now)) }
    ensures { Wrote out.old (association_size wide (length (listed list.now))) (association wide (id.0 with listed list.now)) out.new }
{
    write_wide_id(out, id);
    out.w8(n);
    write_list(out, list);
}

// An item's entry as the form has it.
#[tactic(auto, unfolding(panel::specs::Form::form_of))]
pub(crate) fn write_association(
    out: &mut Output,
    form: FileForm,
    id: WideItemId,
    n: u8,
    list: &[Associated],
)
    requires room { Room out.old (association_size (form_of form) (length (listed list.now))) }
    requires count { be 1 n ≡ be 1 (length (listed list.now)) }
    ensures { Wrote out.old (association_size (form_of form) (length (listed list.now))) (association (form_of form) (id.0 with listed list.now)) out.new }
{
    match form {
        FileForm::Ordinary => write_ordinary_association(out, ordinary_id(id), n, list),
        FileForm::Wide => write_wide_association(out, id, n, list),
    }
}

// An item's entry, where there is one.
pub(crate) fn write_given_association(
    out: &mut Output,
    form: FileForm,
    id: Option<WideItemId>,
    list: &[Associated],
)
    requires { Room out.old (cond (is_some id) (association_size (form_of form) (length (listed list.now))) 0) }
    ensures { Wrote out.old (cond (is_some id) (association_size (form_of form) (length (listed list.now))) 0) (flat_map (association (form_of form)) (option_to_list (option_map (λ i. i.0 with listed list.now) id))) out.new }
{
    if let Some(id) = id {
        write_association(out, form, id, entry_count(list), list);
    }
}

// The entries of items that have the same properties.
pub(crate) fn write_associations(out: &mut Output, form: FileForm, ids: Ids, list: &[Associated])
    requires { Room out.old (association_size (form_of form) (length (listed list.now)) * ids.count) }
    ensures { Wrote out.old (association_size (form_of form) (length (listed list.now)) * ids.count) (flat_map (association (form_of form)) (each ids.first.0 ids.count (listed list.now))) out.new }
{
    let n = entry_count(list);
    for id in ids.range() {
        write_association(out, form, WideItemId(id), n, list);
    }
}
