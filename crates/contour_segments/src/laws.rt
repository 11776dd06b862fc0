// What holds of levels, and of the segments of every level.
ghost use Rattle.std.specs.Prelude.{◌≡◌, ℤ, AllPairs, Bool, Contains, List, Option};
ghost use Rattle.cell_base.specs.Raster.{Place, Raster};
ghost use Rattle.contour_segments.specs.Levels.{AreLevels};
ghost use Rattle.contour_segments.specs.declared.level.LevelSpec.{LevelSpec};
ghost use Rattle.contour_segments.specs.Segments.{ComesBefore, segments_of};
ghost use Rattle.contour_segments.specs.Crossings.{CrossOnce, CrossesEach, IsLatticeCell, KeepsHighRight};
ghost use Rattle.contour_segments.specs.declared.segment.Segment.{Segment};
ghost use Rattle.contour_segments.specs.declared.side.Side.{Side};

/// At most one list has the levels that are asked for, in ascending order and each once.
pub fn levels_make_one_list()
    ensures { (spec : LevelSpec) (range : Option (ℤ × ℤ)) (a b : List ℤ) → AreLevels spec range a → AreLevels spec range b → a ≡ b }
{}

/// The segments of a level stand in order of row, column and turn.
pub fn segments_stand_in_order()
    ensures { (cells : Raster ℤ) (valid : Raster Bool) (level : ℤ) → AllPairs ComesBefore (segments_of cells valid level) }
{}

/// At each crossing at most one segment of a level starts, and at most one ends.
pub fn segments_cross_once()
    ensures { (cells : Raster ℤ) (valid : Raster Bool) (level : ℤ) → CrossOnce cells valid level }
{}

/// Each segment of a level has the high corners of its lattice cell on its right.
pub fn segments_keep_high_on_right()
    ensures { (cells : Raster ℤ) (valid : Raster Bool) (level : ℤ) (s : Segment) → Contains (segments_of cells valid level) s → KeepsHighRight cells level s }
{}

/// Over each side of a lattice cell of which just one corner is high a segment comes in, or goes out.
pub fn each_crossed_side_has_its_segment()
    ensures { (cells : Raster ℤ) (valid : Raster Bool) (level : ℤ) (place : Place) → IsLatticeCell cells valid place → (side : Side) → CrossesEach cells valid level place side }
{}
