// How many bytes an item's id and a count of items take in a form of the file.
ghost use Rattle.std.specs.Prelude.{◌≡◌, ◌*◌, ◌≤◌, ◌<◌};
ghost use Rattle.panel.specs.Form.{form_of};

use panel::FileForm;

// How many bytes n ids take.
pub fn ids_bytes(form: FileForm, n: u32) -> u32
    requires { 4 * n < 4294967296 }
    ensures value { result ≡ (form_of form).id * n }
    ensures upper_bound { result ≤ 4 * n }
{
    if form.is_wide() { 4 * n } else { 2 * n }
}

// How many bytes a count of items takes.
pub fn count_bytes(form: FileForm) -> u32
    ensures value { result ≡ (form_of form).count }
    ensures upper_bound { result ≤ 4 }
{
    if form.is_wide() { 4 } else { 2 }
}
