// What holds of the texts and the geometries, whatever code reads and writes them.
ghost use Rattle.std.specs.Prelude.{◌≡◌, Ok};
ghost use Rattle.wkt_text.specs.Geometry.{HasCoords, IsWritable};
ghost use Rattle.wkt_text.specs.Grammar.{geometry_of, member_point, path, point, polygon, ring};
ghost use Rattle.wkt_text.specs.Parser.{HasNoBound};
ghost use Rattle.wkt_text.specs.Spelling.{wkt};
ghost use Rattle.wkt_text.specs.declared.geometry.Geometry.{Geometry};

/// Reading the canonical spelling of a geometry gives the geometry, for every geometry that can be written and whose
/// numbers are those of coordinates.
pub fn reads_what_is_written()
    ensures { (g : Geometry) → IsWritable g → HasCoords g → geometry_of (wkt g) ≡ Ok g }
{}

/// No list is too long for its parser.
pub fn lists_have_no_bound()
    ensures points { HasNoBound point }
    ensures members { HasNoBound member_point }
    ensures paths { HasNoBound path }
    ensures rings { HasNoBound ring }
    ensures polygons { HasNoBound polygon }
{}
