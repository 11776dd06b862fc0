// What holds of touched cells, whatever code finds them.
ghost use Rattle.std.specs.Prelude.{◌≡◌, ◌<◌, All};
ghost use Rattle.cell_base.specs.Raster.{Place};
ghost use Rattle.geo_transform.specs.Frame.{IsFrame};
ghost use Rattle.geo_transform.specs.declared.frame.Frame.{Frame};
ghost use Rattle.wkt_text.specs.declared.geometry.Geometry.{Geometry};
ghost use Rattle.burn_scanline.specs.Ring.{all_edges};
ghost use Rattle.burn_scanline.specs.Centre.{is_covered};
ghost use Rattle.all_touched.specs.AlongCells.{IsAlongCells};
ghost use Rattle.all_touched.specs.Touched.{is_touched};

/// Where the rings run along the sides of a frame's cells, the cells that a geometry touches are those that it covers by
/// the centre rule.
pub fn along_cells_touched_is_covered()
    ensures { (frame : Frame) (g : Geometry) (p : Place) → IsFrame frame → All (IsAlongCells frame) (all_edges g)
        → p.0 < frame.nrows → is_touched frame g p ≡ is_covered frame g p }
{}
