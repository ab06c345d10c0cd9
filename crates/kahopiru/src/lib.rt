// The functions of the static library: the length of a panel's file in a form and the file, in the ordinary form where none is named; the
// file of a panel sheet (sheet_call), and where a tile lies (tile). A panel comes as numbers and codes, its byte parts lent beside them,
// each as a pointer and a length. A code that stands for nothing is refused before all checks.

#![tactic(auto)]

mod refusal;
pub mod sheet_call;
pub mod tile;

ghost use Rattle.std.specs.Prelude.{◌≡◌, length};
ghost use Rattle.panel.specs.Form.{ordinary, form_of};
ghost use Rattle.panel.specs.Of.{tiles_of};
ghost use Rattle.panel.specs.Outcome.{says_by};
ghost use Rattle.c_types.specs.Lent.{lent, lent_of};
ghost use Rattle.c_types.specs.Told.{told};
ghost use Rattle.kahopiru.specs.Calls.{said_length, said, after_call, said_length_in, said_in, after_call_in};
ghost use Rattle.kahopiru.specs.Refusal.{call_number};

use c_numbers::panel_from;
use c_types::{LentParts, PanelCodes, Told};
use panel::{FileForm, Samples, Tiles};
use panel_codes::named;
use plan::form_length;
use refusal::CallRefusal;
use write_file::wrap_in_form;

// A picture's tiles.
fn tiles<'a>(hvcc: &'a [u8], lengths: &'a [u32], bytes: &'a [u8]) -> Tiles<'a>
    ensures { tiles_of result ≡ record { hvcc = hvcc.now; lengths = lengths.now; bytes = bytes.now } }
{
    Tiles {
        hvcc,
        samples: Samples { lengths, bytes },
    }
}

// The length of a panel's file in a form, of byte parts that stand in one struct; or why the call is refused.
#[tactic(auto, unfolding(crate::specs::Calls::said_length))]
fn length_from(form: FileForm, panel: PanelCodes, parts: &LentParts) -> Result<u64, CallRefusal>
    ensures { says_by call_number result ≡ said_length (form_of form) panel (lent_of parts.now) }
{
    let panel = panel_from(panel, parts)?;
    Ok(form_length(form, &panel)?)
}

// The same in the form with this code.
#[tactic(auto, unfolding(crate::specs::Calls::said_length_in))]
fn length_in(form: u8, panel: PanelCodes, parts: &LentParts) -> Result<u64, CallRefusal>
    ensures { says_by call_number result ≡ said_length_in form panel (lent_of parts.now) }
{
    let form = named(form as u16)?;
    length_from(form, panel, parts)
}

// The file of a panel in a form, of byte parts that stand in one struct, in the output; or why the call is refused, and all as it was.
#[tactic(auto, unfolding(crate::specs::Calls::said, crate::specs::Calls::after_call))]
fn write_from(
    form: FileForm,
    panel: PanelCodes,
    parts: &LentParts,
    out: &mut [u8],
) -> Result<u64, CallRefusal>
    ensures answer { says_by call_number result ≡ said (form_of form) panel (lent_of parts.now) (length out.old) }
    ensures out_after { out.new ≡ after_call (form_of form) panel (lent_of parts.now) out.old }
{
    let panel = panel_from(panel, parts)?;
    Ok(wrap_in_form(form, &panel, out)?)
}

// The same in the form with this code.
#[tactic(auto, unfolding(crate::specs::Calls::said_in, crate::specs::Calls::after_call_in))]
fn write_in(
    form: u8,
    panel: PanelCodes,
    parts: &LentParts,
    out: &mut [u8],
) -> Result<u64, CallRefusal>
    ensures answer { says_by call_number result ≡ said_in form panel (lent_of parts.now) (length out.old) }
    ensures out_after { out.new ≡ after_call_in form panel (lent_of parts.now) out.old }
{
    let form = named(form as u16)?;
    write_from(form, panel, parts, out)
}

// The length of a panel's file in the ordinary form, or the number of its refusal. C hands over each part as two arguments, so that the
// calls over a panel name all of them. Each builds the struct itself: a function for it would take the parts by place, where here each has
// its name; and so would a call without a form that handed on to the one with a form.
#[unsafe(no_mangle)]
#[tactic(auto, unfolding(panel::specs::Form::form_of))]
pub extern "C" fn kahopiru_file_length(
    panel: PanelCodes,
    color_hvcc: &[u8],
    alpha_hvcc: &[u8],
    color_lengths: &[u32],
    alpha_lengths: &[u32],
    color_samples: &[u8],
    alpha_samples: &[u8],
    icc: &[u8],
    exif: &[u8],
    gain_hvcc: &[u8],
    gain_sample: &[u8],
    gain_xmp: &[u8],
    gain_tmap: &[u8],
    alternate_icc: &[u8],
) -> Told
    ensures { result ≡ told (said_length ordinary panel (lent color_hvcc.now alpha_hvcc.now color_lengths.now alpha_lengths.now color_samples.now alpha_samples.now icc.now exif.now gain_hvcc.now gain_sample.now gain_xmp.now gain_tmap.now alternate_icc.now)) }
{
    let parts = LentParts {
        color: tiles(color_hvcc, color_lengths, color_samples),
        alpha: tiles(alpha_hvcc, alpha_lengths, alpha_samples),
        icc,
        exif,
        gain_hvcc,
        gain_sample,
        gain_xmp,
        gain_tmap,
        alternate_icc,
    };
    length_from(FileForm::Ordinary, panel, &parts).into()
}

// The file of a panel in the ordinary form in the output, and its length; or the number of its refusal, and the output as it was.
#[unsafe(no_mangle)]
#[tactic(auto, unfolding(panel::specs::Form::form_of))]
pub extern "C" fn kahopiru_write(
    panel: PanelCodes,
    color_hvcc: &[u8],
    alpha_hvcc: &[u8],
    color_lengths: &[u32],
    alpha_lengths: &[u32],
    color_samples: &[u8],
    alpha_samples: &[u8],
    icc: &[u8],
    exif: &[u8],
    gain_hvcc: &[u8],
    gain_sample: &[u8],
    gain_xmp: &[u8],
    gain_tmap: &[u8],
    alternate_icc: &[u8],
    out: &mut [u8],
) -> Told
    ensures value { result ≡ told (said ordinary panel (lent color_hvcc.now alpha_hvcc.now color_lengths.now alpha_lengths.now color_samples.now alpha_samples.now icc.now exif.now gain_hvcc.now gain_sample.now gain_xmp.now gain_tmap.now alternate_icc.now) (length out.old)) }
    ensures out_after { out.new ≡ after_call ordinary panel (lent color_hvcc.now alpha_hvcc.now color_lengths.now alpha_lengths.now color_samples.now alpha_samples.now icc.now exif.now gain_hvcc.now gain_sample.now gain_xmp.now gain_tmap.now alternate_icc.now) out.old }
{
    let parts = LentParts {
        color: tiles(color_hvcc, color_lengths, color_samples),
        alpha: tiles(alpha_hvcc, alpha_lengths, alpha_samples),
        icc,
        exif,
        gain_hvcc,
        gain_sample,
        gain_xmp,
        gain_tmap,
        alternate_icc,
    };
    write_from(FileForm::Ordinary, panel, &parts, out).into()
}

// The length of a panel's file in the form with this code, or the number of the refusal.
#[unsafe(no_mangle)]
pub extern "C" fn kahopiru_form_length(
    form: u8,
    panel: PanelCodes,
    color_hvcc: &[u8],
    alpha_hvcc: &[u8],
    color_lengths: &[u32],
    alpha_lengths: &[u32],
    color_samples: &[u8],
    alpha_samples: &[u8],
    icc: &[u8],
    exif: &[u8],
    gain_hvcc: &[u8],
    gain_sample: &[u8],
    gain_xmp: &[u8],
    gain_tmap: &[u8],
    alternate_icc: &[u8],
) -> Told
    ensures { result ≡ told (said_length_in form panel (lent color_hvcc.now alpha_hvcc.now color_lengths.now alpha_lengths.now color_samples.now alpha_samples.now icc.now exif.now gain_hvcc.now gain_sample.now gain_xmp.now gain_tmap.now alternate_icc.now)) }
{
    let parts = LentParts {
        color: tiles(color_hvcc, color_lengths, color_samples),
        alpha: tiles(alpha_hvcc, alpha_lengths, alpha_samples),
        icc,
        exif,
        gain_hvcc,
        gain_sample,
        gain_xmp,
        gain_tmap,
        alternate_icc,
    };
    length_in(form, panel, &parts).into()
}

// The file of a panel in the form with this code in the output, and its length; or the number of the refusal, and the output as it was.
#[unsafe(no_mangle)]
pub extern "C" fn kahopiru_form_write(
    form: u8,
    panel: PanelCodes,
    color_hvcc: &[u8],
    alpha_hvcc: &[u8],
    color_lengths: &[u32],
    alpha_lengths: &[u32],
    color_samples: &[u8],
    alpha_samples: &[u8],
    icc: &[u8],
    exif: &[u8],
    gain_hvcc: &[u8],
    gain_sample: &[u8],
    gain_xmp: &[u8],
    gain_tmap: &[u8],
    alternate_icc: &[u8],
    out: &mut [u8],
) -> Told
    ensures value { result ≡ told (said_in form panel (lent color_hvcc.now alpha_hvcc.now color_lengths.now alpha_lengths.now color_samples.now alpha_samples.now icc.now exif.now gain_hvcc.now gain_sample.now gain_xmp.now gain_tmap.now alternate_icc.now) (length out.old)) }
    ensures out_after { out.new ≡ after_call_in form panel (lent color_hvcc.now alpha_hvcc.now color_lengths.now alpha_lengths.now color_samples.now alpha_samples.now icc.now exif.now gain_hvcc.now gain_sample.now gain_xmp.now gain_tmap.now alternate_icc.now) out.old }
{
    let parts = LentParts {
        color: tiles(color_hvcc, color_lengths, color_samples),
        alpha: tiles(alpha_hvcc, alpha_lengths, alpha_samples),
        icc,
        exif,
        gain_hvcc,
        gain_sample,
        gain_xmp,
        gain_tmap,
        alternate_icc,
    };
    write_in(form, panel, &parts, out).into()
}
