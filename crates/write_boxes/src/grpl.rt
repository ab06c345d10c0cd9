// The box grpl, and the one group in it.
ghost use Rattle.std.specs.Prelude.{[], ◌∷◌, ◌+◌, ◌<◌};
ghost use Rattle.octets.specs.Boxes.{box, boxes};
ghost use Rattle.octets.specs.Stores.{Room, Boxed};
ghost use Rattle.heif.specs.Grpl.{altr, grpl, altr_size, grpl_size};

use octets::Output;
use panel::WideItemId;
use plan_items::items::Items;

// altr: a tone map or else a grid is shown; the group's id is the first that no item has.
fn write_altr(out: &mut Output, tone: WideItemId, grid: WideItemId)
    requires room { Room out.old altr_size }
    requires group_fits { tone.0 < 4294967295 }
    ensures { Boxed out.old altr_size (altr tone.0 grid.0 ∷ []) out.new }
{
    out.write_fullbox(28, b"altr", 0, 0);
    out.w32(tone.0 + 1);
    out.w32(2);
    out.w32(tone.0);
    out.w32(grid.0);
}

// The box with its one group.
fn write_group_box(out: &mut Output, tone: WideItemId, grid: WideItemId)
    requires room { Room out.old (8 + altr_size) }
    requires group_fits { tone.0 < 4294967295 }
    ensures { Boxed out.old (8 + altr_size) (box "grpl" (boxes (altr tone.0 grid.0 ∷ [])) ∷ []) out.new }
{
    out.write_box(36, b"grpl");
    write_altr(out, tone, grid);
}

// grpl, where there is a tone map.
pub fn write_grpl(out: &mut Output, s: Items)
    requires { Room out.old (grpl_size s) }
    ensures { Boxed out.old (grpl_size s) (grpl s) out.new }
{
    if s.has_tone() {
        write_group_box(out, s.tmap_id(), s.color_grid_id());
    }
}
