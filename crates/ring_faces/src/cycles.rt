// Finds the cycles of a table's links, and the corners where they turn.
ghost use Rattle.std.specs.Prelude.{◌≡◌, ◌+◌, ◌++◌, ◌^◌, ◌<◌, IfOk, OnOk, false, length, replicate, vec_len};
ghost use Rattle.ring_faces.specs.Inner.Blocks.{IsBlock, gathered, gathered_corners};
ghost use Rattle.ring_faces.specs.Inner.Chains.{AreRings, ring_along};
ghost use Rattle.ring_faces.specs.Inner.Cycles.{AreAllCycles, AreFound, AreMarks, IsFree, IsRound, MarksThese, numbers_of};
ghost use Rattle.ring_faces.specs.Inner.Lattice.{HaveNumbers};
ghost use Rattle.ring_faces.specs.Inner.Tables.{IsLinkedTable};

use crate::lattice::Lattice;
use crate::rings::RingCorners;
use crate::turns::TurnBlock;
use edge_trace::EdgeWalks;
use std::alloc::{AllocError, Global};

// A cycle: the number of its first edge, and how many edges it has.
#[derive(Clone, Copy)]
pub(crate) struct Cycle {
    pub(crate) first: u32,
    pub(crate) edges: u32,
}

// All cycles, each from the first of its edges, in the order of these, and their rings.
#[derive(Drop)]
pub(crate) struct Cycles {
    pub(crate) cycles: Vec<Cycle>,
    pub(crate) rings: RingCorners,
}

// Walks the cycle of an edge that wasn't passed, and adds the corners where it turns.
fn walk(
    walks: &mut EdgeWalks,
    lattice: Lattice,
    block: &mut TurnBlock,
    corners: &mut Vec<u32>,
    first: u32,
) -> Result<Cycle, AllocError>
    requires linked { IsLinkedTable walks.old.table }
    requires few { length walks.old.table.edges < 2 ^ 32 }
    requires numbers { HaveNumbers lattice.width walks.old.table }
    requires marks { AreMarks walks.old.table.next walks.old.passed }
    requires first { first < length walks.old.table.next }
    requires free { IsFree walks.old.passed first }
    requires block { IsBlock block.old }
    ensures table { walks.new.table ≡ walks.old.table }
    ensures first { IfOk result (λ cycle. cycle.first ≡ first) }
    ensures round { IfOk result (IsRound walks.old.table.next) }
    ensures marks { IfOk result (λ cycle. MarksThese (numbers_of walks.old.table.next cycle) walks.old.passed walks.new.passed) }
    ensures corners { IfOk result (λ cycle.
        gathered_corners lattice.width corners.new.items block.new
        ≡ gathered_corners lattice.width corners.old.items block.old ++ ring_along walks.old.table cycle) }
    ensures block { OnOk result (IsBlock block.new) }
{
    let mut count = 0;
    let mut edge = walks.edge(first);
    let mut level = !edge.is_level();
    'walk: while let Some(next) = walks.pass(edge) {
        count += 1;
        level = block.push_turn(lattice, corners, edge, level)?;
        edge = next;
    }
    Ok(Cycle {
        first,
        edges: count,
    })
}

impl Cycles {
    // Adds the cycle of an edge and its ring, unless it was found by an earlier edge.
    fn find(
        &mut self,
        walks: &mut EdgeWalks,
        block: &mut TurnBlock,
        e: u32,
    ) -> Result<(), AllocError>
        requires linked { IsLinkedTable walks.old.table }
        requires few { length walks.old.table.edges < 2 ^ 32 }
        requires numbers { HaveNumbers self.old.rings.lattice.width walks.old.table }
        requires edge { e < length walks.old.table.next }
        requires found { AreFound walks.old.table.next self.old.cycles.items walks.old.passed e }
        requires rings { AreRings self.old.rings.lattice.width walks.old.table self.old.cycles.items
            (gathered self.old.rings.corners.items block.old) self.old.rings.starts.items }
        requires block { IsBlock block.old }
        ensures table { walks.new.table ≡ walks.old.table }
        ensures found { OnOk result (AreFound walks.old.table.next self.new.cycles.items walks.new.passed (e + 1)) }
        ensures rings { OnOk result (AreRings self.new.rings.lattice.width walks.old.table self.new.cycles.items
            (gathered self.new.rings.corners.items block.new) self.new.rings.starts.items) }
        ensures block { OnOk result (IsBlock block.new) }
        ensures lattice { self.new.rings.lattice ≡ self.old.rings.lattice }
    {
        if walks.is_passed(e) {
            return Ok(());
        }
        let cycle = walk(walks, self.rings.lattice, block, &mut self.rings.corners, e)?;
        self.rings
            .starts
            .push(block.count_behind(&self.rings.corners))?;
        self.cycles.push(cycle)?;
        Ok(())
    }

    // Passes each edge, of which none was passed before. The only error is want of memory.
    pub(crate) fn of(
        alloc: Global,
        walks: &mut EdgeWalks,
        lattice: Lattice,
    ) -> Result<Cycles, AllocError>
        requires linked { IsLinkedTable walks.old.table }
        requires numbers { HaveNumbers lattice.width walks.old.table }
        requires none { walks.old.passed ≡ replicate (length walks.old.table.edges) false }
        ensures table { walks.new.table ≡ walks.old.table }
        ensures all { IfOk result (λ found. AreAllCycles walks.old.table.next found.cycles.items) }
        ensures few { IfOk result (λ found. vec_len found.cycles < 2 ^ 32) }
        ensures rings { IfOk result (λ found.
            AreRings found.rings.lattice.width walks.old.table found.cycles.items
            found.rings.corners.items found.rings.starts.items) }
    {
        let mut block = TurnBlock::make(alloc)?;
        let mut found = Cycles {
            cycles: Vec::new(alloc),
            rings: RingCorners {
                lattice,
                corners: Vec::new(alloc),
                starts: vec![in alloc; 0; 1]?,
            },
        };
        for e in 0..walks.count() {
            found.find(walks, &mut block, e)?;
        }
        block.move_to(&mut found.rings.corners)?;
        Ok(found)
    }
}
