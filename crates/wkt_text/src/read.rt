// Reading a geometry.
ghost use Rattle.std.specs.Prelude.{◌≡◌, IfOk};
ghost use Rattle.wkt_text.specs.Geometry.{IsWritable};
ghost use Rattle.wkt_text.specs.Grammar.{body, kind_and_body, member_point, one_point, path, point, polygon, ring, whole};
ghost use Rattle.wkt_text.specs.Inner.Cursor.{Reads};
ghost use Rattle.wkt_text.specs.Answer.{IsAnswerTo};
ghost use Rattle.wkt_text.specs.Parser.{list_of, listed};

use crate::cursor::Cursor;
use crate::fault::{Refusal, WktFault, WktKind};
use crate::geometry::{Geometry, Path, Polygons, Pt, Rings};
use crate::kind::{Kind, empty};
use std::alloc::Global;

fn point(cursor: &mut Cursor<'_>) -> Result<Pt, Refusal>
    ensures { Reads point cursor.old cursor.new result }
{
    let x = cursor.coordinate()?;
    let y = cursor.coordinate()?;
    cursor.no_third(Pt { x, y })
}

// A member of a MULTIPOINT: a point, or one in parentheses.
fn member_point(cursor: &mut Cursor<'_>) -> Result<Pt, Refusal>
    ensures { Reads member_point cursor.old cursor.new result }
{
    if !cursor.take_mark(b'(') {
        return point(cursor);
    }
    let point = point(cursor)?;
    cursor.closing()?;
    Ok(point)
}

fn points(alloc: Global, cursor: &mut Cursor<'_>) -> Result<Path, Refusal>
    ensures { Reads (listed point) cursor.old cursor.new result }
{
    let mut points = Path::new(alloc);
    'members: loop {
        points.push(point(cursor)?)?;
        if !cursor.take_mark(b',') {
            return Ok(points);
        }
    }
}

fn member_points(alloc: Global, cursor: &mut Cursor<'_>) -> Result<Path, Refusal>
    ensures { Reads (listed member_point) cursor.old cursor.new result }
{
    let mut points = Path::new(alloc);
    'members: loop {
        points.push(member_point(cursor)?)?;
        if !cursor.take_mark(b',') {
            return Ok(points);
        }
    }
}

fn path(alloc: Global, cursor: &mut Cursor<'_>) -> Result<Path, Refusal>
    ensures { Reads path cursor.old cursor.new result }
{
    cursor.opening()?;
    let points = points(alloc, cursor)?;
    cursor.closing()?;
    Ok(points)
}

fn paths(alloc: Global, cursor: &mut Cursor<'_>) -> Result<Rings, Refusal>
    ensures { Reads (listed path) cursor.old cursor.new result }
{
    let mut paths = Rings::new(alloc);
    'members: loop {
        paths.push(path(alloc, cursor)?)?;
        if !cursor.take_mark(b',') {
            return Ok(paths);
        }
    }
}

fn ring(alloc: Global, cursor: &mut Cursor<'_>) -> Result<Path, Refusal>
    ensures { Reads ring cursor.old cursor.new result }
{
    cursor.opening()?;
    let points = points(alloc, cursor)?;
    cursor.ring_end(points)
}

fn rings(alloc: Global, cursor: &mut Cursor<'_>) -> Result<Rings, Refusal>
    ensures { Reads (listed ring) cursor.old cursor.new result }
{
    let mut rings = Rings::new(alloc);
    'members: loop {
        rings.push(ring(alloc, cursor)?)?;
        if !cursor.take_mark(b',') {
            return Ok(rings);
        }
    }
}

fn polygon(alloc: Global, cursor: &mut Cursor<'_>) -> Result<Rings, Refusal>
    ensures { Reads polygon cursor.old cursor.new result }
{
    cursor.opening()?;
    let rings = rings(alloc, cursor)?;
    cursor.closing()?;
    Ok(rings)
}

fn polygons(alloc: Global, cursor: &mut Cursor<'_>) -> Result<Polygons, Refusal>
    ensures { Reads (listed polygon) cursor.old cursor.new result }
{
    let mut polygons = Polygons::new(alloc);
    'members: loop {
        polygons.push(polygon(alloc, cursor)?)?;
        if !cursor.take_mark(b',') {
            return Ok(polygons);
        }
    }
}

fn one_point(alloc: Global, cursor: &mut Cursor<'_>) -> Result<Path, Refusal>
    ensures { Reads one_point cursor.old cursor.new result }
{
    cursor.opening()?;
    let point = point(cursor)?;
    cursor.closing()?;
    let mut path = Path::new(alloc);
    path.push(point)?;
    Ok(path)
}

fn multipoint(alloc: Global, cursor: &mut Cursor<'_>) -> Result<Path, Refusal>
    ensures { Reads (list_of member_point) cursor.old cursor.new result }
{
    cursor.opening()?;
    let points = member_points(alloc, cursor)?;
    cursor.closing()?;
    Ok(points)
}

fn multilinestring(alloc: Global, cursor: &mut Cursor<'_>) -> Result<Rings, Refusal>
    ensures { Reads (list_of path) cursor.old cursor.new result }
{
    cursor.opening()?;
    let paths = paths(alloc, cursor)?;
    cursor.closing()?;
    Ok(paths)
}

fn multipolygon(alloc: Global, cursor: &mut Cursor<'_>) -> Result<Polygons, Refusal>
    ensures { Reads (list_of polygon) cursor.old cursor.new result }
{
    cursor.opening()?;
    let polygons = polygons(alloc, cursor)?;
    cursor.closing()?;
    Ok(polygons)
}

fn body(alloc: Global, kind: Kind, cursor: &mut Cursor<'_>) -> Result<Geometry, Refusal>
    ensures { Reads (body kind) cursor.old cursor.new result }
{
    Ok(match kind {
        Kind::Point => Geometry::Point(one_point(alloc, cursor)?),
        Kind::LineString => Geometry::LineString(path(alloc, cursor)?),
        Kind::Polygon => Geometry::Polygon(polygon(alloc, cursor)?),
        Kind::MultiPoint => Geometry::MultiPoint(multipoint(alloc, cursor)?),
        Kind::MultiLineString => Geometry::MultiLineString(multilinestring(alloc, cursor)?),
        Kind::MultiPolygon => Geometry::MultiPolygon(multipolygon(alloc, cursor)?),
    })
}

fn kind_and_body(alloc: Global, cursor: &mut Cursor<'_>) -> Result<Geometry, Refusal>
    ensures { Reads kind_and_body cursor.old cursor.new result }
{
    let kind = cursor.kind()?;
    if cursor.empty_word()? {
        return Ok(empty(alloc, kind));
    }
    body(alloc, kind, cursor)
}

// A geometry and nothing behind it.
fn whole(alloc: Global, cursor: &mut Cursor<'_>) -> Result<Geometry, Refusal>
    ensures { Reads whole cursor.old cursor.new result }
{
    let geometry = kind_and_body(alloc, cursor)?;
    if cursor.is_at_end() {
        Ok(geometry)
    } else {
        Err(Refusal::Offence(WktKind::Syntax))
    }
}

/// The geometry that a text spells, or the first offence with the number of its first byte, counted from 1. It needs
/// memory for the geometry alone.
pub fn read_geometry(alloc: Global, text: &[u8]) -> Result<Geometry, WktFault>
    ensures answer { IsAnswerTo text.now result }
    ensures writable { IfOk result IsWritable }
{
    let mut cursor = Cursor::of(text);
    match whole(alloc, &mut cursor) {
        Ok(geometry) => Ok(geometry),
        Err(Refusal::Offence(kind)) => Err(WktFault::At {
            kind,
            byte: cursor.offset(),
        }),
        Err(Refusal::NoMemory) => Err(WktFault::NoMemory),
    }
}
