// Which segment follows which.
ghost use Rattle.std.specs.Prelude.{◌≡◌, ◌+◌, ◌<◌, ◌≤◌, ◌↔◌, Contains, IfOk, IsTrue, Some, length, slice_get};
ghost use Rattle.cell_base.specs.Order.{IsBefore};
ghost use Rattle.contour_segments.specs.Segments.{cross_on};
ghost use Rattle.contour_segments.specs.declared.segment.Segment.{Segment as SegmentOf};
ghost use Rattle.contour_segments.specs.declared.side.Side.{Side as SideOf};
ghost use Rattle.contour_chain.specs.Contours.{AreSegments};
ghost use Rattle.contour_chain.specs.Inner.Links.{AllBefore, AreFollowers, ArePassed, IsBeyondIf, IsFirstAt, IsFirstFrom, Passes, Starts, StartsAt, cell_of, number_of};

use contour_segments::{Cross, Segment, Side};
use std::alloc::{AllocError, Global};

// Whether two crossings are one.
fn is_same(a: Cross, b: Cross) -> bool
    ensures { IsTrue result ↔ (a ≡ b) }
{
    a.row == b.row && a.col == b.col && a.down == b.down
}

// Whether a segment lies in a lattice cell before a place.
fn lies_before(segment: Segment, place: (u32, u32)) -> bool
    ensures { IsTrue result ↔ IsBefore (cell_of segment) place }
{
    segment.row < place.0 || (segment.row == place.0 && segment.col < place.1)
}

// The side over which a segment goes out of its lattice cell.
fn exit_of(segment: Segment) -> Side
    requires { (side : SideOf) × (segment.to ≡ cross_on (cell_of segment) side) }
    ensures { segment.to ≡ cross_on (cell_of segment) result }
{
    if segment.to.down {
        if segment.to.col == segment.col {
            Side::Left
        } else {
            Side::Right
        }
    } else if segment.to.row == segment.row {
        Side::Top
    } else {
        Side::Bottom
    }
}

// The lattice cell beyond the side over which a segment goes out, if there can be one.
fn beyond(segment: Segment, side: Side) -> Option<(u32, u32)>
    requires { segment.to ≡ cross_on (cell_of segment) side }
    ensures { IsBeyondIf side (cell_of segment) result }
{
    match side {
        Side::Top => {
            if segment.row == 0 {
                return None;
            }
            Some((segment.row - 1, segment.col))
        }
        Side::Right => Some((segment.row, segment.to.col)),
        Side::Bottom => Some((segment.to.row, segment.col)),
        Side::Left => {
            if segment.col == 0 {
                return None;
            }
            Some((segment.row, segment.col - 1))
        }
    }
}

// Whether the segment at an index, if there is one, lies before a place.
fn passes(segments: &[Segment], at: usize, place: (u32, u32)) -> bool
    ensures { IsTrue result ↔ Passes segments.now place at }
{
    at < segments.len() && lies_before(segments[at], place)
}

// The first index, from one on, whose segment doesn't lie before a place.
fn first_from(segments: &[Segment], from: usize, place: (u32, u32)) -> usize
    requires within { from ≤ length segments.now }
    requires before { AllBefore segments.now from place }
    ensures { IsFirstFrom segments.now place result }
{
    let mut at = from;
    'passing: while passes(segments, at, place) {
        at += 1;
    }
    at
}

// Whether the segment at an index, if there is one, starts at a crossing.
fn starts(segments: &[Segment], at: usize, cross: Cross) -> bool
    ensures { IsTrue result ↔ Starts segments.now cross at }
{
    at < segments.len() && is_same(segments[at].from, cross)
}

// The index of the segment that starts at a crossing, of the two at most that lie in a lattice cell; the number of
// segments where none does.
fn starting_at(segments: &[Segment], at: usize, cross: Cross) -> usize
    requires segments { AreSegments segments.now }
    requires first { IsFirstAt segments.now cross at }
    ensures { StartsAt segments.now cross result }
{
    let end = segments.len();
    if starts(segments, at, cross) {
        return at;
    }
    if starts(segments, at + 1, cross) {
        return at + 1;
    }
    end
}

// The number of a side.
fn number(side: Side) -> usize
    ensures value { result ≡ number_of side }
    ensures small { result < 4 }
{
    match side {
        Side::Top => 0,
        Side::Right => 1,
        Side::Bottom => 2,
        Side::Left => 3,
    }
}

// The index of the segment that starts where a segment ends, or the number of segments. By side it is kept how many
// segments lie before the lattice cells to come; as the segments are in order, each is passed once.
fn follower(segments: &[Segment], passed: &mut [usize; 4], i: usize) -> usize
    requires segments { AreSegments segments.now }
    requires i { i < length segments.now }
    requires passed { ArePassed segments.now i passed.old }
    ensures starts { (s : SegmentOf) → slice_get segments.now i ≡ Some s → StartsAt segments.now s.to result }
    ensures passed { ArePassed segments.now (i + 1) passed.new }
{
    let segment = segments[i];
    let side = exit_of(segment);
    match beyond(segment, side) {
        None => segments.len(),
        Some(place) => {
            let k = number(side);
            let at = first_from(segments, passed[k], place);
            passed[k] = at;
            starting_at(segments, at, segment.to)
        }
    }
}

// For each segment the index of the one that starts where it ends, or the number of segments. The only error is want
// of memory.
pub(crate) fn followers(alloc: Global, segments: &[Segment]) -> Result<Vec<usize>, AllocError>
    requires { AreSegments segments.now }
    ensures all { IfOk result (λ next. length next.items ≡ length segments.now) }
    ensures follow { IfOk result (λ next. AreFollowers segments.now next.items) }
{
    let mut next = Vec::with_capacity(alloc, segments.len())?;
    let mut passed = [0; 4];
    for i in 0..segments.len() {
        next.push(follower(segments, &mut passed, i))?;
    }
    Ok(next)
}
