// The texts of polygons, from the corners of their rings.
ghost use Rattle.std.specs.Prelude.{◌≡◌, ◌++◌, ◌<◌, ◌≤◌, All, OnOk, length, map};
ghost use Rattle.ring_faces.specs.Faces.{IsCornerOf};
ghost use Rattle.tool_outcome.specs.Polygonize.{path_of};
ghost use Rattle.wkt_text.specs.Spelling.{path_text, polygon_text};

use crate::corner_texts::CornerTexts;
use ring_faces::{CornerWalk, RingWalk};
use std::alloc::AllocError;

// A refusal of these leaves a part of the text, which the callers throw away.

// Appends the path of a ring: its corners, the first again at the end.
fn write_ring(
    texts: &mut CornerTexts,
    mut ring: CornerWalk<'_>,
    out: &mut Vec<u8>,
) -> Result<(), AllocError>
    requires some { 0 < length ring }
    requires corners { All (IsCornerOf texts.old.frame.nrows texts.old.frame.ncols) ring }
    ensures text { OnOk result (out.new.items ≡ out.old.items ++ path_text (path_of texts.old.frame ring.entry)) }
    ensures frame { texts.new.frame ≡ texts.old.frame }
{
    let first = ring.next().unwrap();
    out.push(b'(')?;
    texts.write(first, out)?;
    'corners: for corner in ring {
        out.push(b',')?;
        texts.write(corner, out)?;
    }
    // a ring is closed by its first point
    out.push(b',')?;
    texts.write(first, out)?;
    out.push(b')')?;
    Ok(())
}

// Appends the paths of a polygon's rings.
pub(crate) fn write_polygon(
    texts: &mut CornerTexts,
    rings: RingWalk<'_>,
    out: &mut Vec<u8>,
) -> Result<(), AllocError>
    requires some { 0 < length rings }
    requires long { All (λ ring. 4 ≤ length ring) rings }
    requires corners { All (All (IsCornerOf texts.old.frame.nrows texts.old.frame.ncols)) rings }
    ensures text { OnOk result (out.new.items ≡ out.old.items ++ polygon_text (map (path_of texts.old.frame) rings.entry)) }
    ensures frame { texts.new.frame ≡ texts.old.frame }
{
    let mut mark = b'(';
    'rings: for ring in rings {
        out.push(mark)?;
        write_ring(texts, ring, out)?;
        mark = b',';
    }
    out.push(b')')?;
    Ok(())
}
