// meta: the boxes of the items, then those of their properties.
#![tactic(auto)]

ghost use Rattle.std.specs.Prelude.{[], ◌∷◌};
ghost use Rattle.octets.specs.Stores.{Room, Boxed};
ghost use Rattle.panel.specs.Form.{form_of};
ghost use Rattle.panel.specs.Of.{panel_of};
ghost use Rattle.write_iloc.specs.Locations.{placed};
ghost use Rattle.write_meta.specs.Sections.{iprp_of, iprp_bytes, meta_of, meta_bytes, Sections};

use octets::Output;
use panel::{FileForm, Panel};
use plan_items::grid::Grid;
use plan_items::items::Items;
use plan_layout::Layout;
use plan_runs::Places;
use write_boxes::grpl::write_grpl;
use write_boxes::hdlr::write_hdlr;
use write_boxes::idat::write_idat;
use write_boxes::pitm::write_pitm;
use write_iinf::write_iinf;
use write_iloc::write_iloc;
use write_ipma::write_ipma;
use write_iref::write_iref;
use write_properties::ipco::write_ipco;

// iprp: ipco and ipma.
fn write_iprp(
    out: &mut Output,
    form: FileForm,
    items: Items,
    layout: &Layout,
    places: &Places,
    panel: &Panel,
)
    requires room { Room out.old (iprp_bytes (form_of form) (panel_of panel.now) items places.now) }
    requires sections { Sections (form_of form) (panel_of panel.now) layout.now items places.now }
    ensures { let f = form_of form in let p = panel_of panel.now in Boxed out.old (iprp_bytes f p items places.now) (iprp_of f p items places.now ∷ []) out.new }
{
    out.write_box(layout.iprp, b"iprp");
    write_ipco(out, layout.ipco, panel);
    write_ipma(out, form, layout.ipma, items, places);
}

// meta of a panel that has these items, laid out so, with its properties at these places.
#[tactic(auto, unfolding(panel::specs::Of::panel_of))]
pub fn write_meta(
    out: &mut Output,
    form: FileForm,
    items: Items,
    layout: &Layout,
    places: &Places,
    panel: &Panel,
)
    requires room { Room out.old (meta_bytes (form_of form) (panel_of panel.now) items places.now) }
    requires sections { Sections (form_of form) (panel_of panel.now) layout.now items places.now }
    ensures { let f = form_of form in let p = panel_of panel.now in Boxed out.old (meta_bytes f p items places.now) (meta_of f p items places.now (placed items layout.now.payloads p.tiles.lengths p.alpha.lengths) ∷ []) out.new }
{
    out.write_fullbox(layout.meta, b"meta", 0, 0);
    write_hdlr(out);
    write_pitm(out, form, items.color_grid_id());
    write_iloc(
        out,
        form,
        layout.iloc,
        items,
        layout.payloads,
        panel.color.samples.lengths,
        panel.alpha.samples.lengths,
    );
    write_iinf(out, form, layout.iinf, items);
    write_iref(out, form, layout.iref, items);
    write_iprp(out, form, items, layout, places, panel);
    write_grpl(out, items);
    write_idat(out, layout.idat, Grid::new(panel.dims));
}
