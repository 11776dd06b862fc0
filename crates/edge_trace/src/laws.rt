// What holds of boundaries, whatever code finds them.
ghost use Rattle.std.specs.Prelude.{ℕ};
ghost use Rattle.region_label.specs.Labelling.{IsInRegion, RegionTable};
ghost use Rattle.edge_trace.specs.EdgeTable.{EdgeTable, EnclosesRegions, HoldsBoundaries, IsEnclosedByBoundary};

/// Each component is enclosed by its boundary: over all its boundary edges the crossing count is odd
/// exactly at the component's cells. So a table that holds each boundary edge once encloses each component.
pub fn boundary_encloses()
    ensures boundary { (regions : RegionTable) (k : ℕ) → IsEnclosedByBoundary (IsInRegion regions k) }
    ensures table { (regions : RegionTable) (table : EdgeTable)
        → HoldsBoundaries regions table → EnclosesRegions regions table }
{}
