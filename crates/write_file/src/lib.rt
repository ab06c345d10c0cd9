// The file of a panel: the call that writes it.
#![tactic(auto)]

ghost use Rattle.std.specs.Prelude.{◌≡◌, ◌≤◌, length, drop, IfOk};
ghost use Rattle.octets.specs.Numbers.{◌‖◌};
ghost use Rattle.panel.specs.Form.{ordinary, form_of};
ghost use Rattle.panel.specs.Of.{panel_of};
ghost use Rattle.panel.specs.Outcome.{says};
ghost use Rattle.panel.specs.Widths.{Fits};
ghost use Rattle.heif.specs.File.{file};
ghost use Rattle.heif.specs.Answer.{Promised};
ghost use Rattle.plan.specs.Plan.{MadeFrom};

use octets::Output;
use panel::{FileForm, Panel, Refusal};
use plan::{FilePlan, plan_of};
use write_boxes::ftyp::write_ftyp;
use write_boxes::mdat::write_mdat;
use write_meta::write_meta;

// ftyp, meta and mdat of a panel whose file is planned, from the start of the output on.
fn write_file(bytes: &mut [u8], form: FileForm, plan: &FilePlan, panel: &Panel)
    requires made { MadeFrom (form_of form) (panel_of panel.now) plan.now }
    requires room { plan.now.length ≤ length bytes.old }
    ensures { let it = file (form_of form) (panel_of panel.now) in bytes.new ≡ it ‖ drop (length it) bytes.old }
{
    let layout = &plan.layout;
    let mut out = Output::new(bytes);
    write_ftyp(
        &mut out,
        layout.ftyp,
        layout.color_rext,
        layout.gain_rext,
        plan.items.has_tone(),
    );
    write_meta(&mut out, form, plan.items, layout, &plan.places, panel);
    write_mdat(&mut out, layout.mdat, panel);
}

// The file of a panel in a form, in the output, and its length; or why it is refused, and the output as it was. `within` stands beside
// `promised`, here and in each call that ends here, for one who has that call's contract alone and takes the file out of the output.
pub fn wrap_in_form(form: FileForm, panel: &Panel, out: &mut [u8]) -> Result<u64, Refusal>
    ensures promised { Promised (form_of form) (panel_of panel.now) out.old (says result) out.new }
    ensures within { IfOk result (λ n. n ≤ length out.old) }
    ensures fits { Fits (panel_of panel.now) }
{
    let plan = plan_of(form, panel)?;
    if (out.len() as u64) < plan.length {
        return Err(Refusal::OutputLength);
    }
    write_file(out, form, &plan, panel);
    Ok(plan.length)
}

// The file of a panel in the ordinary form, in the output, and its length; or why it is refused, and the output as it was.
#[tactic(auto, unfolding(panel::specs::Form::form_of))]
pub fn wrap_hevc_grid_with_alpha(panel: &Panel, out: &mut [u8]) -> Result<u64, Refusal>
    ensures promised { Promised ordinary (panel_of panel.now) out.old (says result) out.new }
    ensures within { IfOk result (λ n. n ≤ length out.old) }
    ensures fits { Fits (panel_of panel.now) }
{
    wrap_in_form(FileForm::Ordinary, panel, out)
}
