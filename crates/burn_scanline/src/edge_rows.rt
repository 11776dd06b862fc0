// The edges of a geometry's rings by the rows that they have.
ghost use Rattle.std.specs.Prelude.{◌≡◌, ◌<◌, ◌≤◌, ◌∷◌, [], IfOk, OnOk, Some, length, option_map, slice_get};
ghost use Rattle.std.specs.List.{flat_map};
ghost use Rattle.geo_transform.specs.Frame.{IsFrame};
ghost use Rattle.geo_transform.specs.declared.frame.Frame.{Frame as FrameNumbers};
ghost use Rattle.burn_scanline.specs.Ring.{all_edges, edges_of};
ghost use Rattle.burn_scanline.specs.EdgeTable.{IsEdgeTable, edge_of, span_of, starting_below};
ghost use Rattle.burn_scanline.specs.Inner.Crossing.{AreRowsAt};
ghost use Rattle.burn_scanline.specs.Inner.Linking.{Gathers, HaveRowsBelow, HaveRowsFrom, IsFilled, IsHead, IsLinked, IsLinkedTo, LinksOne, edges_in};
ghost use Rattle.burn_scanline.specs.declared.edge_rows.SpanRule.{SpanRule as Rule};

use crate::crossing::{rows_above, rows_past, rows_reaching};
use geo_transform::Frame;
use std::alloc::{AllocError, Global};
use std::marker::Model;
use wkt_text::{Geometry, Path, Polygons, Pt, Rings};

/// Which rows of a frame an edge has.
#[derive(Clone, Copy, Debug, PartialEq, Eq)]
pub enum SpanRule {
    /// Those whose centres' height is from the edge's lower end on and below its upper end.
    Centre,
    /// Those whose open strip, from the lower to the upper side of the row's cells, the edge's heights meet. An edge of no
    /// length has none.
    Strip,
}

/// An edge in the direction of its ring, with its first and its last row.
#[derive(Clone, Copy, Debug, PartialEq, Eq)]
pub struct SpannedEdge {
    pub start: Pt,
    pub end: Pt,
    pub first: u32,
    pub last: u32,
}

// An edge, and the one before it that begins in the same row.
#[derive(Clone, Copy)]
pub(crate) struct LinkedEdge {
    pub(crate) edge: SpannedEdge,
    pub(crate) link: Option<usize>,
}

// A point of a ring; an edge with this end has rows from the one on, if the end is its upper one, and before the other,
// if it is its lower one.
#[derive(Clone, Copy)]
pub(crate) struct RingPoint {
    pub(crate) point: Pt,
    pub(crate) first: u32,
    pub(crate) end: u32,
}

// Edges, the rows from the first that one of them has up to the last, and by these rows the last edge that begins there.
#[derive(Drop)]
pub(crate) struct RowTable {
    pub(crate) edges: Vec<LinkedEdge>,
    pub(crate) first_row: u32,
    pub(crate) end_row: u32,
    pub(crate) heads: Vec<Option<usize>>,
}

/// The numbers of the edges that begin in a row, one by one. Contracts see those that are left.
#[derive(Drop)]
pub struct EdgeWalk<'a> {
    edges: &'a [LinkedEdge],
    next: Option<usize>,
}

impl<'a> Model for EdgeWalk<'a> {
    ghost use Rattle.std.specs.Prelude.{List, ℕ};
    ghost use Rattle.burn_scanline.specs.Inner.Linking.{IsWalkOf, edges_in, from_link};

    ghost Value = { List ℕ };

    ghost view = { λ walk. from_link (edges_in walk.edges.now) walk.next };

    ghost invariant = { λ walk. IsWalkOf walk.edges.now walk.next };
}

impl<'a> Iterator for EdgeWalk<'a> {
    type Item = usize;

    ghost use Rattle.std.specs.Iterator.{YieldsFirst, item_count};

    ghost next_gives = { YieldsFirst (λ rest. rest) };

    ghost remaining = { item_count (λ rest. rest) };

    fn next(&mut self) -> Option<usize> {
        let at = self.next?;
        self.next = self.edges[at].link;
        Some(at)
    }
}

// A point with its rows.
fn ring_point(frame: &Frame, rule: SpanRule, point: Pt) -> RingPoint
    requires { IsFrame frame.now }
    ensures point { result.point ≡ point }
    ensures rows { AreRowsAt rule frame.now point.y result.first result.end }
{
    match rule {
        SpanRule::Centre => {
            let rows = rows_above(frame, point.y);
            RingPoint {
                point,
                first: rows,
                end: rows,
            }
        }
        SpanRule::Strip => RingPoint {
            point,
            first: rows_past(frame, point.y),
            end: rows_reaching(frame, point.y),
        },
    }
}

impl RowTable {
    // No edge. It takes no memory.
    pub(crate) fn new(alloc: Global) -> RowTable {
        RowTable {
            edges: Vec::new(alloc),
            first_row: 0,
            end_row: 0,
            heads: Vec::new(alloc),
        }
    }

    // Adds an edge, if it has rows: from the first of its upper end on, and before the end of its lower one.
    fn push_edge(&mut self, start: &RingPoint, end: &RingPoint) -> Result<(), AllocError>
        ensures { OnOk result ((rule : Rule) (frame : FrameNumbers)
            → AreRowsAt rule frame start.now.point.y start.now.first start.now.end
            → AreRowsAt rule frame end.now.point.y end.now.first end.now.end
            → Gathers rule frame ((start.now.point, end.now.point) ∷ []) self.old.edges.items self.new.edges.items) }
    {
        if start.point == end.point {
            return Ok(());
        }
        let first_row = start.first.min(end.first);
        let end_row = start.end.max(end.end);
        if first_row >= end_row {
            return Ok(());
        }
        let edge = SpannedEdge {
            start: start.point,
            end: end.point,
            first: first_row,
            last: end_row - 1,
        };
        self.edges.push(LinkedEdge { edge, link: None })?;
        Ok(())
    }

    // Adds the edges of a ring.
    fn push_ring(&mut self, frame: &Frame, rule: SpanRule, ring: &Path) -> Result<(), AllocError>
        requires { IsFrame frame.now }
        ensures { OnOk result (Gathers rule frame.now (edges_of ring.now) self.old.edges.items self.new.edges.items) }
    {
        let points = ring.as_slice();
        if points.is_empty() {
            return Ok(());
        }
        let mut before = ring_point(frame, rule, points[points.len() - 1]);
        for at in 0..points.len() {
            let here = ring_point(frame, rule, points[at]);
            self.push_edge(&before, &here)?;
            before = here;
        }
        Ok(())
    }

    // Adds the edges of rings.
    fn push_rings(&mut self, frame: &Frame, rule: SpanRule, rings: &Rings) -> Result<(), AllocError>
        requires { IsFrame frame.now }
        ensures { OnOk result (Gathers rule frame.now (flat_map edges_of rings.now) self.old.edges.items self.new.edges.items) }
    {
        for ring in rings.as_slice() {
            self.push_ring(frame, rule, ring)?;
        }
        Ok(())
    }

    // Adds the edges of a geometry.
    fn push_geometry(
        &mut self,
        frame: &Frame,
        rule: SpanRule,
        g: &Geometry,
    ) -> Result<(), AllocError>
        requires { IsFrame frame.now }
        ensures { OnOk result (Gathers rule frame.now (all_edges g.now) self.old.edges.items self.new.edges.items) }
    {
        match g {
            Geometry::Polygon(rings) => self.push_rings(frame, rule, rings),
            Geometry::MultiPolygon(polygons) => self.push_polygons(frame, rule, polygons),
            _ => Ok(()),
        }
    }

    // Adds the edges of polygons.
    fn push_polygons(
        &mut self,
        frame: &Frame,
        rule: SpanRule,
        polygons: &Polygons,
    ) -> Result<(), AllocError>
        requires { IsFrame frame.now }
        ensures { OnOk result (Gathers rule frame.now (flat_map edges_of (flat_map (λ rings. rings) polygons.now))
            self.old.edges.items self.new.edges.items) }
    {
        for rings in polygons.as_slice() {
            self.push_rings(frame, rule, rings)?;
        }
        Ok(())
    }

    // The rows from the first that an edge has up to the last.
    fn own_rows(&self, nrows: u32) -> (u32, u32)
        requires { HaveRowsBelow nrows self.now.edges.items }
        ensures rows { HaveRowsFrom result.0 result.1 self.now.edges.items }
        ensures order { result.0 ≤ result.1 }
        ensures within { result.1 ≤ nrows }
    {
        let mut first = nrows;
        let mut end = 0;
        for e in 0..self.edges.len() {
            let edge = self.edges[e].edge;
            first = first.min(edge.first);
            end = end.max(edge.last + 1);
        }
        (first.min(end), end)
    }

    // Lets there be no edge yet behind any of the rows.
    fn unlink(&mut self, first_row: u32, end_row: u32) -> Result<(), AllocError>
        requires order { first_row ≤ end_row }
        requires rows { HaveRowsFrom first_row end_row self.old.edges.items }
        ensures edges { self.new.edges ≡ self.old.edges }
        ensures end { OnOk result (self.new.end_row ≡ end_row) }
        ensures linked { OnOk result (IsLinkedTo 0 self.new) }
    {
        self.first_row = first_row;
        self.end_row = end_row;
        self.heads.clear();
        self.heads.resize((end_row - first_row) as usize, None)?;
        Ok(())
    }

    // Links an edge to the one before it that begins in its row.
    fn link_edge(&mut self, e: usize)
        requires e { e < length self.old.edges.items }
        requires linked { IsLinkedTo e self.old }
        ensures { LinksOne e self.old self.new }
    {
        let edge = self.edges[e].edge;
        let row = (edge.first - self.first_row) as usize;
        let link = self.heads[row];
        self.edges[e] = LinkedEdge { edge, link };
        self.heads[row] = Some(e);
    }

    // Links the edges by the rows that they begin in.
    fn link(&mut self, nrows: u32) -> Result<(), AllocError>
        requires { HaveRowsBelow nrows self.old.edges.items }
        ensures edges { OnOk result (edges_in self.new.edges.items ≡ edges_in self.old.edges.items) }
        ensures linked { OnOk result (IsLinked self.new) }
        ensures within { OnOk result (self.new.end_row ≤ nrows) }
    {
        let (first_row, end_row) = self.own_rows(nrows);
        self.unlink(first_row, end_row)?;
        for e in 0..self.edges.len() {
            self.link_edge(e);
        }
        Ok(())
    }

    // Puts the edges of a geometry in the place of those that the table held. After a refusal it holds any values.
    pub(crate) fn fill(
        &mut self,
        frame: &Frame,
        g: &Geometry,
        rule: SpanRule,
    ) -> Result<(), AllocError>
        requires { IsFrame frame.now }
        ensures { OnOk result (IsFilled rule frame.now g.now self.new) }
    {
        self.edges.clear();
        self.push_geometry(frame, rule, g)?;
        self.link(frame.nrows)
    }

    // The last edge that begins in a row.
    fn head(&self, row: u32) -> Option<usize>
        requires { IsLinked self.now }
        ensures { IsHead (edges_in self.now.edges.items) row (length self.now.edges.items) result }
    {
        if row < self.first_row {
            return None;
        }
        if row >= self.end_row {
            return None;
        }
        self.heads[(row - self.first_row) as usize]
    }

    // The edges whose first row is this one.
    pub(crate) fn starting(&self, row: u32) -> EdgeWalk<'_>
        requires { IsLinked self.now }
        ensures { result ≡ starting_below (edges_in self.now.edges.items) row (length self.now.edges.items) }
    {
        EdgeWalk {
            edges: &self.edges,
            next: self.head(row),
        }
    }
}

/// The edges of a geometry's rings that have a row in a frame, each once, and by row those that begin there. Contracts
/// see the edges by their numbers.
#[derive(Drop)]
pub struct EdgeRows {
    table: RowTable,
}

impl Model for EdgeRows {
    ghost use Rattle.std.specs.Prelude.{List};
    ghost use Rattle.burn_scanline.specs.EdgeTable.{SpannedEdge};
    ghost use Rattle.burn_scanline.specs.Inner.Linking.{IsLinked, edges_in};

    ghost Value = { List SpannedEdge };

    ghost view = { λ rows. edges_in rows.table.edges.items };

    ghost invariant = { λ rows. IsLinked rows.table };
}

impl EdgeRows {
    /// The edges of a geometry, with the rows that a rule gives them. Points and lines have no edges. The only error is
    /// want of memory.
    pub fn build(
        alloc: Global,
        frame: &Frame,
        g: &Geometry,
        rule: SpanRule,
    ) -> Result<EdgeRows, AllocError>
        requires { IsFrame frame.now }
        ensures { IfOk result (λ table. IsEdgeTable rule frame.now g.now table) }
    {
        let mut table = RowTable::new(alloc);
        table.fill(frame, g, rule)?;
        Ok(EdgeRows { table })
    }

    /// The number of edges.
    pub fn count(&self) -> usize
        ensures { result ≡ length self.now }
    {
        self.table.edges.len()
    }

    /// An edge with its rows, by its number.
    pub fn edge(&self, e: usize) -> SpannedEdge
        requires { e < length self.now }
        ensures { slice_get self.now e ≡ Some result }
    {
        self.table.edges[e].edge
    }

    /// The ends of an edge, in the direction of its ring.
    pub fn ends(&self, e: usize) -> (Pt, Pt)
        requires { e < length self.now }
        ensures { option_map edge_of (slice_get self.now e) ≡ Some result }
    {
        let edge = self.edge(e);
        (edge.start, edge.end)
    }

    /// The first and the last row of an edge.
    pub fn span(&self, e: usize) -> (u32, u32)
        requires { e < length self.now }
        ensures { option_map span_of (slice_get self.now e) ≡ Some result }
    {
        let edge = self.edge(e);
        (edge.first, edge.last)
    }

    /// The numbers of the edges whose first row is this one, the last one first.
    pub fn starting(&self, row: u32) -> EdgeWalk<'_>
        ensures { result ≡ starting_below self.now row (length self.now) }
    {
        self.table.starting(row)
    }
}
