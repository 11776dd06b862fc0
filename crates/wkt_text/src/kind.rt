// The six kinds of geometries.
ghost use Rattle.std.specs.Prelude.{◌≡◌};
ghost use Rattle.wkt_text.specs.Grammar.{empty, is_dimension, kind_of};

use crate::geometry::{Geometry, Path, Polygons, Rings};
use std::alloc::Global;

/// The kind of a geometry.
#[derive(Clone, Copy)]
pub(crate) enum Kind {
    Point,
    LineString,
    Polygon,
    MultiPoint,
    MultiLineString,
    MultiPolygon,
}

// The kind that a word names.
pub(crate) fn kind_of(word: &[u8]) -> Option<Kind>
    ensures { result ≡ kind_of word.now }
{
    if word.eq_ignore_ascii_case(b"POINT") {
        Some(Kind::Point)
    } else if word.eq_ignore_ascii_case(b"LINESTRING") {
        Some(Kind::LineString)
    } else if word.eq_ignore_ascii_case(b"POLYGON") {
        Some(Kind::Polygon)
    } else if word.eq_ignore_ascii_case(b"MULTIPOINT") {
        Some(Kind::MultiPoint)
    } else if word.eq_ignore_ascii_case(b"MULTILINESTRING") {
        Some(Kind::MultiLineString)
    } else if word.eq_ignore_ascii_case(b"MULTIPOLYGON") {
        Some(Kind::MultiPolygon)
    } else {
        None
    }
}

// Whether a word marks more than two dimensions.
pub(crate) fn is_dimension(word: &[u8]) -> bool
    ensures { result ≡ is_dimension word.now }
{
    word.eq_ignore_ascii_case(b"Z")
        || word.eq_ignore_ascii_case(b"M")
        || word.eq_ignore_ascii_case(b"ZM")
}

// The EMPTY of a kind.
pub(crate) fn empty(alloc: Global, kind: Kind) -> Geometry
    ensures { result ≡ empty kind }
{
    match kind {
        Kind::Point => Geometry::Point(Path::new(alloc)),
        Kind::LineString => Geometry::LineString(Path::new(alloc)),
        Kind::Polygon => Geometry::Polygon(Rings::new(alloc)),
        Kind::MultiPoint => Geometry::MultiPoint(Path::new(alloc)),
        Kind::MultiLineString => Geometry::MultiLineString(Rings::new(alloc)),
        Kind::MultiPolygon => Geometry::MultiPolygon(Polygons::new(alloc)),
    }
}
