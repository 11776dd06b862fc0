// Writing a geometry.
ghost use Rattle.std.specs.Prelude.{◌≡◌, ◌++◌, ◌<◌, All, OnErr, OnOk, length, take};
ghost use Rattle.wkt_text.specs.Geometry.{IsWritable};
ghost use Rattle.wkt_text.specs.Inner.Spelled.{IsFull};
ghost use Rattle.wkt_text.specs.Spelling.{body_text, list_text, member_text, path_text, point_text, polygon_text, wkt};

use crate::geometry::{Geometry, Path, Polygons, Pt, Rings};
use std::alloc::AllocError;

// A refusal of these leaves a part of the text behind what was there before.

fn write_point(point: Pt, out: &mut Vec<u8>) -> Result<(), AllocError>
    ensures ok { OnOk result (out.new.items ≡ out.old.items ++ point_text point) }
    ensures err { OnErr result (take (length out.old.items) out.new.items ≡ out.old.items) }
{
    point.x.write(out)?;
    out.push(b' ')?;
    point.y.write(out)?;
    Ok(())
}

fn write_member(point: Pt, out: &mut Vec<u8>) -> Result<(), AllocError>
    ensures ok { OnOk result (out.new.items ≡ out.old.items ++ member_text point) }
    ensures err { OnErr result (take (length out.old.items) out.new.items ≡ out.old.items) }
{
    out.push(b'(')?;
    write_point(point, out)?;
    out.push(b')')?;
    Ok(())
}

fn write_path(path: &Path, out: &mut Vec<u8>) -> Result<(), AllocError>
    requires { 0 < length path.now }
    ensures ok { OnOk result (out.new.items ≡ out.old.items ++ path_text path.now) }
    ensures err { OnErr result (take (length out.old.items) out.new.items ≡ out.old.items) }
{
    let mut mark = b'(';
    'members: for member in path.as_slice() {
        out.push(mark)?;
        write_point(*member, out)?;
        mark = b',';
    }
    out.push(b')')?;
    Ok(())
}

fn write_members(points: &Path, out: &mut Vec<u8>) -> Result<(), AllocError>
    requires { 0 < length points.now }
    ensures ok { OnOk result (out.new.items ≡ out.old.items ++ list_text member_text points.now) }
    ensures err { OnErr result (take (length out.old.items) out.new.items ≡ out.old.items) }
{
    let mut mark = b'(';
    'members: for member in points.as_slice() {
        out.push(mark)?;
        write_member(*member, out)?;
        mark = b',';
    }
    out.push(b')')?;
    Ok(())
}

fn write_paths(paths: &Rings, out: &mut Vec<u8>) -> Result<(), AllocError>
    requires { IsFull paths.now }
    ensures ok { OnOk result (out.new.items ≡ out.old.items ++ polygon_text paths.now) }
    ensures err { OnErr result (take (length out.old.items) out.new.items ≡ out.old.items) }
{
    let mut mark = b'(';
    'members: for member in paths.as_slice() {
        out.push(mark)?;
        write_path(member, out)?;
        mark = b',';
    }
    out.push(b')')?;
    Ok(())
}

fn write_polygons(polygons: &Polygons, out: &mut Vec<u8>) -> Result<(), AllocError>
    requires some { 0 < length polygons.now }
    requires full { All IsFull polygons.now }
    ensures ok { OnOk result (out.new.items ≡ out.old.items ++ list_text polygon_text polygons.now) }
    ensures err { OnErr result (take (length out.old.items) out.new.items ≡ out.old.items) }
{
    let mut mark = b'(';
    'members: for member in polygons.as_slice() {
        out.push(mark)?;
        write_paths(member, out)?;
        mark = b',';
    }
    out.push(b')')?;
    Ok(())
}

// A kind, and EMPTY or the body.

fn write_path_or_empty(kind: &[u8], path: &Path, out: &mut Vec<u8>) -> Result<(), AllocError>
    ensures ok { OnOk result (out.new.items ≡ out.old.items ++ (kind.now ++ body_text point_text path.now)) }
    ensures err { OnErr result (take (length out.old.items) out.new.items ≡ out.old.items) }
{
    out.extend_from_slice(kind)?;
    if path.is_empty() {
        out.extend_from_slice(b"EMPTY")?;
        return Ok(());
    }
    write_path(path, out)?;
    Ok(())
}

fn write_members_or_empty(kind: &[u8], points: &Path, out: &mut Vec<u8>) -> Result<(), AllocError>
    ensures ok { OnOk result (out.new.items ≡ out.old.items ++ (kind.now ++ body_text member_text points.now)) }
    ensures err { OnErr result (take (length out.old.items) out.new.items ≡ out.old.items) }
{
    out.extend_from_slice(kind)?;
    if points.is_empty() {
        out.extend_from_slice(b"EMPTY")?;
        return Ok(());
    }
    write_members(points, out)?;
    Ok(())
}

fn write_paths_or_empty(kind: &[u8], paths: &Rings, out: &mut Vec<u8>) -> Result<(), AllocError>
    requires { All (λ path. 0 < length path) paths.now }
    ensures ok { OnOk result (out.new.items ≡ out.old.items ++ (kind.now ++ body_text path_text paths.now)) }
    ensures err { OnErr result (take (length out.old.items) out.new.items ≡ out.old.items) }
{
    out.extend_from_slice(kind)?;
    if paths.is_empty() {
        out.extend_from_slice(b"EMPTY")?;
        return Ok(());
    }
    write_paths(paths, out)?;
    Ok(())
}

fn write_polygons_or_empty(
    kind: &[u8],
    polygons: &Polygons,
    out: &mut Vec<u8>,
) -> Result<(), AllocError>
    requires { All IsFull polygons.now }
    ensures ok { OnOk result (out.new.items ≡ out.old.items ++ (kind.now ++ body_text polygon_text polygons.now)) }
    ensures err { OnErr result (take (length out.old.items) out.new.items ≡ out.old.items) }
{
    out.extend_from_slice(kind)?;
    if polygons.is_empty() {
        out.extend_from_slice(b"EMPTY")?;
        return Ok(());
    }
    write_polygons(polygons, out)?;
    Ok(())
}

fn append_geometry(geometry: &Geometry, out: &mut Vec<u8>) -> Result<(), AllocError>
    requires { IsWritable geometry.now }
    ensures ok { OnOk result (out.new.items ≡ out.old.items ++ wkt geometry.now) }
    ensures err { OnErr result (take (length out.old.items) out.new.items ≡ out.old.items) }
{
    match geometry {
        Geometry::Point(path) => write_path_or_empty(b"POINT ", path, out),
        Geometry::LineString(path) => write_path_or_empty(b"LINESTRING ", path, out),
        Geometry::Polygon(rings) => write_paths_or_empty(b"POLYGON ", rings, out),
        Geometry::MultiPoint(points) => write_members_or_empty(b"MULTIPOINT ", points, out),
        Geometry::MultiLineString(paths) => write_paths_or_empty(b"MULTILINESTRING ", paths, out),
        Geometry::MultiPolygon(polygons) => write_polygons_or_empty(
            b"MULTIPOLYGON ",
            polygons,
            out,
        ),
    }
}

/// Appends the canonical spelling of a geometry: the kind in capitals, a space, and `EMPTY` or the body, with no blank
/// but the one between x and y, and the members of a MULTIPOINT in parentheses. A refusal leaves `out` as it was.
pub fn write_geometry(geometry: &Geometry, out: &mut Vec<u8>) -> Result<(), AllocError>
    requires { IsWritable geometry.now }
    ensures ok { OnOk result (out.new.items ≡ out.old.items ++ wkt geometry.now) }
    ensures err { OnErr result (out.new.items ≡ out.old.items) }
{
    let start = out.len();
    let written = append_geometry(geometry, out);
    if written.is_err() {
        out.truncate(start);
    }
    written
}
