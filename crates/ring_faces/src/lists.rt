// Links the cycles of each component.
ghost use Rattle.std.specs.Prelude.{◌+◌, ◌<◌, ◌^◌, IfOk, length};
ghost use Rattle.edge_trace.specs.EdgeTable.{HoldsBoundaries};
ghost use Rattle.ring_faces.specs.Faces.{AreJoinedBySides};
ghost use Rattle.ring_faces.specs.Inner.Chains.{AreListed, CyclesBegin};

use crate::cycles::Cycle;
use crate::owners::owner_of;
use edge_trace::EdgeWalks;
use region_label::Regions;
use std::alloc::{AllocError, Global};

// By cycle the next one of its component, or the number of cycles where none follows; by component its first.
#[derive(Drop)]
pub(crate) struct CycleLists {
    pub(crate) links: Vec<u32>,
    pub(crate) firsts: Vec<u32>,
}

impl CycleLists {
    // Puts a cycle in front of its component's list; its component is looked for from a number of runs on, and found
    // after so many.
    fn put(
        &mut self,
        walks: &EdgeWalks,
        cycles: &[Cycle],
        regions: &Regions,
        at: usize,
        runs: usize,
    ) -> usize
        requires edges { HoldsBoundaries regions.now walks.now.table }
        requires sides { AreJoinedBySides regions.now }
        requires begin { CyclesBegin walks.now.table cycles.now }
        requires few { length cycles.now < 2 ^ 32 }
        requires at { at < length cycles.now }
        requires listed { AreListed regions.now walks.now.table cycles.now self.old (at + 1) }
        ensures { AreListed regions.now walks.now.table cycles.now self.new at }
    {
        let (row, col) = walks.cell_of(cycles[at].first);
        let owner = owner_of(regions, row, col, runs);
        if let Some(k) = owner.component {
            self.links[at] = self.firsts[k as usize];
            self.firsts[k as usize] = at as u32;
        }
        owner.runs
    }

    // The cycles of each component in the order in which they stand. The only error is want of memory.
    pub(crate) fn make(
        alloc: Global,
        walks: &EdgeWalks,
        cycles: &[Cycle],
        regions: &Regions,
    ) -> Result<CycleLists, AllocError>
        requires edges { HoldsBoundaries regions.now walks.now.table }
        requires sides { AreJoinedBySides regions.now }
        requires begin { CyclesBegin walks.now.table cycles.now }
        requires few { length cycles.now < 2 ^ 32 }
        ensures { IfOk result (λ lists. AreListed regions.now walks.now.table cycles.now lists 0) }
    {
        let end = cycles.len() as u32;
        let links = vec![in alloc; end; cycles.len()]?;
        let firsts = vec![in alloc; end; regions.count() as usize]?;
        let mut lists = CycleLists { links, firsts };
        let mut at = cycles.len();
        let mut runs = regions.table().runs().len();
        while at > 0 {
            at -= 1;
            runs = lists.put(walks, cycles, regions, at, runs);
        }
        Ok(lists)
    }
}
