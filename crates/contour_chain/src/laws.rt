// What holds of the contour lines of every level.
ghost use Rattle.std.specs.Prelude.{ℤ, Bool};
ghost use Rattle.cell_base.specs.Raster.{Raster};
ghost use Rattle.contour_chain.specs.Contours.{HasOneListOfContours};

/// The segments of a level make exactly one list of lines.
pub fn level_has_one_list_of_lines()
    ensures { (cells : Raster ℤ) (valid : Raster Bool) (level : ℤ) → HasOneListOfContours cells valid level }
{}
