ghost use Rattle.std.specs.Prelude.{◌≡◌, ◌+◌, ◌<◌, ◌≤◌, ◌++◌, [], false, IfOk, OnOk, length, replicate};
ghost use Rattle.contour_chain.specs.Contours.{AreContours, AreSegments};
ghost use Rattle.contour_chain.specs.Inner.Links.{AreFollowers, AreMet};
ghost use Rattle.contour_chain.specs.Inner.Walks.{AreTaken, BeginsLine, IsLineFrom, Marks, Opens, Takes};

use crate::links::followers;
use crate::lists::{Line, Lines};
use contour_segments::{Segment, SegmentList};
use std::alloc::{AllocError, Global};

// Marks a place, if there is one at the index.
fn mark(marks: &mut [bool], at: usize)
    ensures { Marks at marks.old marks.new }
{
    if at < marks.len() {
        marks[at] = true;
    }
}

// By segment whether another ends where it starts. The only error is want of memory.
fn starts_met(alloc: Global, next: &[usize]) -> Result<Vec<bool>, AllocError>
    ensures { IfOk result (λ met. AreMet next.now met.items) }
{
    let mut met = vec![in alloc; false; next.len()]?;
    for follower in next {
        mark(&mut met, *follower);
    }
    Ok(met)
}

// The line that begins with a segment; its segments are taken. The only error is want of memory.
fn line_from(
    alloc: Global,
    segments: &[Segment],
    next: &[usize],
    first: usize,
    taken: &mut [bool],
) -> Result<Line, AllocError>
    requires segments { AreSegments segments.now }
    requires all { length next.now ≡ length segments.now }
    requires follow { AreFollowers segments.now next.now }
    requires sized { length taken.old ≡ length segments.now }
    requires line { BeginsLine segments.now first }
    ensures line { IfOk result (λ line. IsLineFrom segments.now first line) }
    ensures taken { IfOk result (λ line. Takes segments.now line taken.old taken.new) }
{
    let mut line = Line::new(alloc);
    let mut at = first;
    'walk: loop {
        line.push(segments[at])?;
        mark(taken, at);
        at = next[at];
        if at == first {
            return Ok(line);
        }
        if at == segments.len() {
            return Ok(line);
        }
    }
}

// Adds the open lines, in the order of their first segments. The only error is want of memory.
fn open_lines(
    alloc: Global,
    segments: &[Segment],
    next: &[usize],
    taken: &mut [bool],
    lines: &mut Lines,
) -> Result<(), AllocError>
    requires segments { AreSegments segments.now }
    requires all { length next.now ≡ length segments.now }
    requires follow { AreFollowers segments.now next.now }
    requires none { taken.old ≡ replicate (length segments.now) false }
    requires empty { lines.old ≡ [] }
    ensures opens { OnOk result (Opens segments.now (length segments.now) lines.new) }
    ensures taken { OnOk result (AreTaken segments.now lines.new taken.new) }
{
    let met = starts_met(alloc, next)?;
    for i in 0..segments.len() {
        if !met[i] {
            let line = line_from(alloc, segments, next, i, taken)?;
            lines.push(line)?;
        }
    }
    Ok(())
}

// Adds the closed lines, in the order of their first segments. The only error is want of memory.
fn closed_lines(
    alloc: Global,
    segments: &[Segment],
    next: &[usize],
    taken: &mut [bool],
    lines: &mut Lines,
) -> Result<(), AllocError>
    requires segments { AreSegments segments.now }
    requires all { length next.now ≡ length segments.now }
    requires follow { AreFollowers segments.now next.now }
    requires opens { Opens segments.now (length segments.now) lines.old }
    requires taken { AreTaken segments.now lines.old taken.old }
    ensures { OnOk result (AreContours segments.now lines.new) }
{
    for i in 0..segments.len() {
        if !taken[i] {
            let line = line_from(alloc, segments, next, i, taken)?;
            lines.push(line)?;
        }
    }
    Ok(())
}

/// The contour lines that the segments of a level make: open lines first, then closed ones, each kind in the order of
/// their first segments; a closed line starts at its least segment by row, column and turn. The only error is want of
/// memory.
pub fn chain(alloc: Global, segments: SegmentList) -> Result<Lines, AllocError>
    requires { AreSegments segments }
    ensures { IfOk result (λ lines. AreContours segments lines) }
{
    let next = followers(alloc, segments.as_slice())?;
    let mut taken = vec![in alloc; false; segments.len()]?;
    let mut lines = Lines::new(alloc);
    open_lines(alloc, segments.as_slice(), &next, &mut taken, &mut lines)?;
    closed_lines(alloc, segments.as_slice(), &next, &mut taken, &mut lines)?;
    Ok(lines)
}
