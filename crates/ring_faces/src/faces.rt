ghost use Rattle.std.specs.Prelude.{◌≡◌, ◌<◌, IfOk, Some, length, option_map, slice_get};
ghost use Rattle.edge_trace.specs.EdgeOrder.{AreInOrder};
ghost use Rattle.edge_trace.specs.EdgeTable.{IsEdgeTable};
ghost use Rattle.region_label.specs.Labelling.{RegionTable};
ghost use Rattle.ring_faces.specs.CanonicalPolygon.{IsPolygonOf};
ghost use Rattle.ring_faces.specs.Faces.{AreJoinedBySides, ArePolygonsOf, polygon_of};
ghost use Rattle.ring_faces.specs.LatticePolygon.{rings_of};

use crate::cycles::Cycles;
use crate::lattice::Lattice;
use crate::lists::CycleLists;
use crate::polygon::{LatticePolygon, Ring, RingList};
use crate::rings::RingCorners;
use crate::walk::RingWalk;
use edge_trace::{EdgeTable, EdgeWalks};
use region_label::Regions;
use std::alloc::{AllocError, Global};
use std::marker::Model;

/// The rings of all components of a grid. Contracts see the polygons by the numbers of the components.
#[derive(Drop)]
pub struct Faces {
    // by cycle, in the order of their first edges
    rings: RingCorners,
    lists: CycleLists,
}

impl Model for Faces {
    ghost use Rattle.std.specs.Prelude.{List};
    ghost use Rattle.ring_faces.specs.LatticePolygon.{Polygon};
    ghost use Rattle.ring_faces.specs.Inner.Chains.{AreFaces, polygons_of, ring_at};

    ghost Value = { List Polygon };

    ghost view = { λ faces. polygons_of (ring_at faces.rings) faces.lists };

    ghost invariant = { λ faces. AreFaces faces.rings faces.lists };
}

impl Faces {
    /// Finds the rings of all components; each edge is walked once. The only error is want of memory.
    pub fn assemble(alloc: Global, edges: EdgeTable, regions: &Regions) -> Result<Faces, AllocError>
        requires edges { IsEdgeTable regions.now edges }
        requires order { AreInOrder edges }
        requires sides { AreJoinedBySides regions.now }
        ensures { IfOk result (ArePolygonsOf regions.now) }
    {
        let lattice = Lattice::of(regions.ncols());
        let mut walks = EdgeWalks::of(edges);
        let Cycles { cycles, rings } = Cycles::of(alloc, &mut walks, lattice)?;
        let lists = CycleLists::make(alloc, &walks, &cycles, regions)?;
        Ok(Faces { rings, lists })
    }

    /// The rings of a component's polygon one by one, the shell first. It takes no memory.
    pub fn rings(&self, k: u32) -> RingWalk<'_>
        requires { k < length self.now }
        ensures { option_map rings_of (slice_get self.now k) ≡ Some result }
    {
        let first = self.lists.firsts[k as usize];
        RingWalk::from(&self.rings, &self.lists.links, first)
    }

    /// The polygon of a component: the only canonical one, by the regions that were assembled. The only error is want of
    /// memory.
    pub fn polygon(&self, alloc: Global, k: u32) -> Result<LatticePolygon, AllocError>
        requires { k < length self.now }
        ensures value { IfOk result (λ polygon. slice_get self.now k ≡ Some (polygon_of polygon)) }
        ensures canonical { IfOk result (λ polygon. (regions : RegionTable)
            → ArePolygonsOf regions self.now → IsPolygonOf regions k (polygon_of polygon)) }
    {
        let mut rings = self.rings(k);
        let shell = Ring::of(alloc, rings.next().unwrap())?;
        let holes = RingList::of(alloc, rings)?;
        Ok(LatticePolygon { shell, holes })
    }
}
