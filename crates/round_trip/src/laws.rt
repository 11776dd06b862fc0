// What holds of grids that are polygonized and burned again, whatever code does it.
ghost use Rattle.std.specs.Prelude.{◌≡◌, ◌↔◌, ◌*◌, ◌≤◌, ℕ, ℤ, Bool, List, Ok, Some, true};
ghost use Rattle.rv_outside.specs.Files.{Files};
ghost use Rattle.cell_base.specs.Raster.{Place, Raster, most_cells};
ghost use Rattle.geo_transform.specs.Frame.{IsFrame, frame_or_fault_in};
ghost use Rattle.geo_transform.specs.Layout.{layout_by_size};
ghost use Rattle.geo_transform.specs.declared.frame.Frame.{Frame};
ghost use Rattle.asc_grid.specs.declared.grid.Asc.{Asc};
ghost use Rattle.region_label.specs.Labelling.{IsInRegion, RegionTable};
ghost use Rattle.ring_faces.specs.EdgePolygon.{IsEdgePolygon};
ghost use Rattle.ring_faces.specs.LatticePolygon.{Polygon};
ghost use Rattle.wkt_text.specs.declared.geometry.Geometry.TheVariants as geometry;
ghost use Rattle.burn_scanline.specs.Burned.{BurnedFeature, inside_value};
ghost use Rattle.burn_scanline.specs.Centre.{is_covered};
ghost use Rattle.burn_scanline.specs.declared.burning.How.TheVariants.{Set};
ghost use Rattle.tool_words.specs.Words.{Text};
ghost use Rattle.tool_words.specs.Check.{FitsCheck};
ghost use Rattle.tool_words.specs.Job.{job_of};
ghost use Rattle.tool_words.specs.declared.job.CheckJob.{CheckJob};
ghost use Rattle.tool_outcome.specs.Check.{checked_grid, layer_job};
ghost use Rattle.tool_outcome.specs.Outcome.{IsOutcome, Outcome};
ghost use Rattle.tool_outcome.specs.Polygonize.{IsPolygonizeText, paths_of};
ghost use Rattle.tool_outcome.specs.Rasterize.{raster_by, rasterize_answer};
ghost use Rattle.tool_outcome.specs.Sieve.{IsMaskOf};
ghost use Rattle.tool_outcome.specs.Source.{source_of, text_of};
ghost use Rattle.round_trip.specs.BackWords.{extent_of};
ghost use Rattle.round_trip.specs.Check.{burn_job};
ghost use Rattle.round_trip.specs.Layer.{AreFeaturesOf, IsInFrame, IsLabelledOver, normalised};
ghost use Rattle.round_trip.specs.RoundTrip.{MakesRoundTrip};

/// Written over a frame, an edge polygon of a component covers exactly the component's cells by the centre rule.
pub fn written_polygon_covers_its_cells()
    ensures { (frame : Frame) (cells : Raster ℤ) (valid : Raster Bool) (regions : RegionTable) (k : ℕ) (polygon : Polygon) (cell : Place)
        → IsLabelledOver frame cells valid regions → IsEdgePolygon (IsInRegion regions k) polygon → IsInFrame frame cell
        → (is_covered frame (geometry.Polygon (paths_of frame polygon)) cell ≡ true) ↔ IsInRegion regions k cell }
{}

/// The polygons of all components, burned in order with their values onto a frame that holds one value, give the
/// normalised grid.
pub fn polygons_give_the_grid_back()
    ensures { (least greatest : ℤ) (frame : Frame) (cells : Raster ℤ) (valid : Raster Bool) (regions : RegionTable)
        (features : List BurnedFeature) (initial : ℤ)
        → IsLabelledOver frame cells valid regions → AreFeaturesOf frame cells regions features
        → raster_by frame.ncols frame.nrows (inside_value least greatest Set is_covered frame initial features) ≡ normalised cells valid initial }
{}

/// The normalised grid is the grid itself, where the valid cells are those without the nodata value and the other value is
/// the nodata value, if there is one.
pub fn normalised_grid_is_the_grid()
    ensures { (asc : Asc ℤ) (valid : Raster Bool) (other : ℤ) → IsMaskOf asc valid
        → ((n : ℤ) → asc.nodata ≡ Some n → other ≡ n) → normalised asc.cells valid other ≡ asc.cells }
{}

/// The extent of a frame, cut into as many columns and rows, gives the frame back.
pub fn extent_gives_the_frame_back()
    ensures { (frame : Frame) → IsFrame frame
        → frame_or_fault_in (extent_of frame) (layout_by_size (extent_of frame) frame.ncols frame.nrows) ≡ Ok frame }
{}

/// The round trip: where words ask to polygonize under side steps a source that has a grid, then from the files of their
/// outcome the back words give the canonical text of that grid, to whatever name.
pub fn grid_comes_back()
    ensures { (words : List Text) (files : Files) (outcome : Outcome) → IsOutcome words files outcome
        → MakesRoundTrip (job_of words) files outcome.files }
{}

/// The grid that `check` makes reads back from its canonical text, where it doesn't have too many cells.
pub fn checked_grid_reads_back()
    ensures { (job : CheckJob) → FitsCheck job → job.width * job.height ≤ most_cells
        → source_of (Some (text_of (checked_grid job))) ≡ Ok (checked_grid job) }
{}

/// The layer of that grid is burned back to its canonical text, in each type of cells.
pub fn checked_grid_comes_back()
    ensures { (job : CheckJob) (layer : List ℕ) (files : Files) → FitsCheck job → job.width * job.height ≤ most_cells
        → IsPolygonizeText layer_job (checked_grid job) layer → files layer_job.dest ≡ Some layer
        → rasterize_answer (burn_job job) files ≡ Ok (text_of (checked_grid job)) }
{}
