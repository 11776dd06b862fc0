// What holds of polygons, whatever code finds them.
ghost use Rattle.std.specs.Prelude.{ℕ, Bool};
ghost use Rattle.cell_base.specs.Raster.{IsRaster, Raster};
ghost use Rattle.cell_base.specs.Steps.{four};
ghost use Rattle.region_label.specs.Labelling.{IsInRegion, IsLabelling, RegionTable};
ghost use Rattle.ring_faces.specs.CanonicalPolygon.{HasOneCanonicalPolygon, IsCanonicalPolygon};
ghost use Rattle.ring_faces.specs.EdgePolygon.{IsEdgePolygon};
ghost use Rattle.ring_faces.specs.Faces.{AreJoinedBySides, FitsGrid};
ghost use Rattle.ring_faces.specs.LatticePolygon.{Polygon};

/// Each component under side steps has exactly one canonical polygon.
pub fn each_has_one_polygon<T>()
    ensures { (cells : Raster T) (valid : Raster Bool) (regions : RegionTable)
        → IsLabelling four cells valid regions → HasOneCanonicalPolygon cells valid }
{}

/// The components of a labelling under side steps are what `Faces::assemble` asks for.
pub fn labelled_by_sides<T>()
    ensures { (cells : Raster T) (valid : Raster Bool) (regions : RegionTable)
        → IsLabelling four cells valid regions → AreJoinedBySides regions }
{}

/// The canonical polygon of a component is one in the loose form too. Its rings have at least four corners
/// each, all of them corners of the grid.
pub fn canonical_polygons_fit()
    ensures edges { (regions : RegionTable) (k : ℕ) (polygon : Polygon) → AreJoinedBySides regions
        → IsCanonicalPolygon (IsInRegion regions k) polygon → IsEdgePolygon (IsInRegion regions k) polygon }
    ensures fits { (regions : RegionTable) (k : ℕ) (polygon : Polygon) → IsRaster regions.numbers
        → IsCanonicalPolygon (IsInRegion regions k) polygon
        → FitsGrid regions.numbers.nrows regions.numbers.ncols polygon }
{}
