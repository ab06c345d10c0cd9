// The plan of a panel's file, computed from lengths alone before anything is written; and the length call.
#![tactic(auto)]

ghost use Rattle.std.specs.Prelude.{◌≡◌, MatchResult};
ghost use Rattle.panel.specs.Of.{panel_of};
ghost use Rattle.panel.specs.Form.{ordinary, form_of};
ghost use Rattle.panel.specs.Widths.{Fits};
ghost use Rattle.panel.specs.Outcome.{says};
ghost use Rattle.heif.specs.Answer.{length_answer};
ghost use Rattle.plan.specs.Plan.{Refused, Passes, MadeFrom};

use panel::{FileForm, Panel, Refusal};
use plan_checks::{bad_counts, bad_cover, bad_grid, bad_items, bad_sums, bad_visible};
use plan_items::items::Items;
use plan_items::shape::shape_of;
use plan_layout::{Layout, file_size, placed};
use plan_positions::places_of;
use plan_runs::Places;
use plan_sizes::sizes_of;

// What a file is made from: its length, which items it has, its layout, and the places of its properties. The writers are handed what they
// need of it, beside the panel and the form, which are a caller's choice.
#[derive(Clone, Copy)]
pub struct FilePlan {
    pub length: u64,
    pub items: Items,
    pub layout: Layout,
    pub places: Places,
}

// The checks 1, 22, 8 and 2 to 4 in this order: which items the file has.
#[tactic(auto, unfolding(panel::specs::Of::panel_of, heif::specs::Refusal::refusal, heif::specs::Answer::length_answer))]
fn first_checks(form: FileForm, panel: &Panel) -> Result<Items, Refusal>
    ensures { MatchResult result (λ s. Passes (form_of form) (panel_of panel.now) s) (λ r. Refused (form_of form) (panel_of panel.now) r) }
{
    let color = panel.color.samples;
    let alpha = panel.alpha.samples;
    if bad_grid(panel.dims) {
        return Err(Refusal::GridSide);
    }
    if bad_visible(panel.dims, panel.visible) {
        return Err(Refusal::VisibleSize);
    }
    if bad_cover(panel.dims, panel.visible) {
        return Err(Refusal::Cover);
    }
    if bad_counts(panel.dims, color.lengths.len(), alpha.lengths.len()) {
        return Err(Refusal::TileCount);
    }
    if bad_sums(color, alpha) {
        return Err(Refusal::SampleLengths);
    }
    let items = Items::new(shape_of(panel, color.lengths.len() as u32));
    if bad_items(form, items) {
        return Err(Refusal::ItemIds);
    }
    Ok(items)
}

// The plan of a panel's file: the checks 1, 22, 8 and 2 to 5 in this order, and all numbers of the file.
#[tactic(auto, unfolding(panel::specs::Of::panel_of))]
pub fn plan_of(form: FileForm, panel: &Panel) -> Result<FilePlan, Refusal>
    ensures planned { MatchResult result (λ m. MadeFrom (form_of form) (panel_of panel.now) m) (λ r. Refused (form_of form) (panel_of panel.now) r) }
    ensures fits { Fits (panel_of panel.now) }
{
    panel.fits();
    let items = first_checks(form, panel)?;
    let places = places_of(panel);
    let sizes = sizes_of(form, panel, items, &places);
    let length = file_size(sizes);
    if length > 4294967295 {
        return Err(Refusal::FileLength);
    }
    Ok(FilePlan {
        length: length as u64,
        items,
        layout: placed(panel, sizes),
        places,
    })
}

// The length of a panel's file in a form, or why it is refused.
pub fn form_length(form: FileForm, panel: &Panel) -> Result<u64, Refusal>
    ensures answer { says result ≡ length_answer (form_of form) (panel_of panel.now) }
    ensures fits { Fits (panel_of panel.now) }
{
    Ok(plan_of(form, panel)?.length)
}

// The length of a panel's file in the ordinary form, or why it is refused.
#[tactic(auto, unfolding(panel::specs::Form::form_of))]
pub fn file_length(panel: &Panel) -> Result<u64, Refusal>
    ensures answer { says result ≡ length_answer ordinary (panel_of panel.now) }
    ensures fits { Fits (panel_of panel.now) }
{
    form_length(FileForm::Ordinary, panel)
}
