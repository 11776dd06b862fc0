// What holds of outcomes.
ghost use Rattle.std.specs.Prelude.{ℕ, ℤ, List};
ghost use Rattle.rv_outside.specs.Files.{Files};
ghost use Rattle.cell_base.specs.Raster.{IsRaster};
ghost use Rattle.asc_grid.specs.declared.grid.Asc.{Asc};
ghost use Rattle.tool_words.specs.Words.{Text};
ghost use Rattle.tool_words.specs.declared.job.ContourJob.{ContourJob};
ghost use Rattle.tool_words.specs.declared.job.PolygonizeJob.{PolygonizeJob};
ghost use Rattle.tool_words.specs.declared.job.SieveJob.{SieveJob};
ghost use Rattle.tool_outcome.specs.Contour.{HasOneContourText};
ghost use Rattle.tool_outcome.specs.Outcome.{HasOneOutcome};
ghost use Rattle.tool_outcome.specs.Polygonize.{HasOneLayer, IsPolygonizeText};
ghost use Rattle.tool_outcome.specs.Sieve.{AgreesWithSieve};

/// For all words and files there is at most one outcome: one status, one line, one state of the files, one text on
/// standard output.
pub fn outcome_is_one()
    ensures { (words : List Text) (files : Files) → HasOneOutcome words files }
{}

/// The cells that `gdal_sieve` writes are those of the sieved grid, at a threshold of at most 1 too.
pub fn writes_the_sieved_grid()
    ensures { (job : SieveJob) (asc : Asc ℤ) → AgreesWithSieve job asc }
{}

/// A grid has at most one polygonize text, without and with `-8`: each component under side steps has one canonical
/// polygon, and all else follows from the grid.
pub fn polygonize_text_is_one()
    ensures { (job : PolygonizeJob) (asc : Asc ℤ) → HasOneLayer job asc }
{}

/// Each grid has a polygonize text, without and with `-8`.
pub fn each_grid_has_a_layer()
    ensures { (job : PolygonizeJob) (asc : Asc ℤ) → IsRaster asc.cells → (text : List ℕ) × IsPolygonizeText job asc text }
{}

/// A grid has at most one contour text: the levels that are asked for have one list, and the segments of each level make
/// one list of lines.
pub fn contour_text_is_one()
    ensures { (job : ContourJob) (asc : Asc ℤ) → HasOneContourText job asc }
{}
