// The corners where walks turn, gathered in blocks.
ghost use Rattle.std.specs.Prelude.{◌≡◌, ◌+◌, ◌<◌, ◌≤◌, ◌++◌, IfOk, OnOk, length};
ghost use Rattle.edge_trace.specs.Edge.{is_level};
ghost use Rattle.edge_trace.specs.Walk.{edge_between};
ghost use Rattle.ring_faces.specs.Inner.Blocks.{IsBlock, IsEmptyBlock, gathered, gathered_corners, held};
ghost use Rattle.ring_faces.specs.Inner.Lattice.{HasNumber, corners_of};
ghost use Rattle.ring_faces.specs.Inner.Turns.{AddsTurn};

use crate::lattice::Lattice;
use edge_trace::WalkEdge;
use std::alloc::{AllocError, Global};

// So many corners stay in the nearest memory.
const BLOCK: usize = 1_024;

// The corners where a walk turned last, on their way into a longer list. Each edge's corner is written to the block, and
// counted only where the walk turns: a jump would be as often wrong as right.
#[derive(Drop)]
pub(crate) struct TurnBlock {
    pub(crate) corners: Vec<u32>,
    pub(crate) count: usize,
}

impl TurnBlock {
    // A block that holds no corner. The only error is want of memory.
    pub(crate) fn make(alloc: Global) -> Result<TurnBlock, AllocError>
        ensures { IfOk result IsEmptyBlock }
    {
        let corners = vec![in alloc; 0; BLOCK]?;
        Ok(TurnBlock { corners, count: 0 })
    }

    // Takes the corner where an edge begins, unless the edge goes on as the one before; answers whether it is level.
    fn take_turn(&mut self, lattice: Lattice, edge: WalkEdge, level: bool) -> bool
        requires number { HasNumber lattice.width (edge_between edge).0 }
        requires room { self.old.count < length self.old.corners.items }
        ensures level { result ≡ is_level (edge_between edge) }
        ensures turn { AddsTurn (edge_between edge) level (corners_of lattice.width (held self.old))
            (corners_of lattice.width (held self.new)) }
        ensures block { IsBlock self.new }
    {
        let now = edge.is_level();
        self.corners[self.count] = lattice.number(edge.start);
        self.count += (now != level) as usize;
        now
    }

    // The number of corners of a list and of this block behind it.
    pub(crate) fn count_behind(&self, corners: &Vec<u32>) -> usize
        requires { IsBlock self.now }
        ensures { result ≡ length (gathered corners.now.items self.now) }
    {
        corners.len() + self.count
    }

    // Moves its corners to a list.
    pub(crate) fn move_to(&mut self, corners: &mut Vec<u32>) -> Result<(), AllocError>
        requires block { IsBlock self.old }
        ensures moved { OnOk result (corners.new.items ≡ corners.old.items ++ held self.old) }
        ensures empty { OnOk result (IsEmptyBlock self.new) }
    {
        corners.extend_from_slice(&self.corners[..self.count])?;
        self.count = 0;
        Ok(())
    }

    // Moves its corners to a list if there is no room for another.
    fn make_room(&mut self, corners: &mut Vec<u32>) -> Result<(), AllocError>
        requires block { IsBlock self.old }
        ensures same { OnOk result (gathered corners.new.items self.new ≡ gathered corners.old.items self.old) }
        ensures room { OnOk result (self.new.count < length self.new.corners.items) }
    {
        if self.count < self.corners.len() {
            return Ok(());
        }
        self.move_to(corners)?;
        Ok(())
    }

    // Adds the corner where an edge begins to a list and this block behind it, unless the edge goes on as the one before;
    // answers whether it is level.
    pub(crate) fn push_turn(
        &mut self,
        lattice: Lattice,
        corners: &mut Vec<u32>,
        edge: WalkEdge,
        level: bool,
    ) -> Result<bool, AllocError>
        requires number { HasNumber lattice.width (edge_between edge).0 }
        requires block { IsBlock self.old }
        ensures level { IfOk result (λ now. now ≡ is_level (edge_between edge)) }
        ensures turn { OnOk result (AddsTurn (edge_between edge) level
            (gathered_corners lattice.width corners.old.items self.old)
            (gathered_corners lattice.width corners.new.items self.new)) }
        ensures block { OnOk result (IsBlock self.new) }
    {
        self.make_room(corners)?;
        let now = self.take_turn(lattice, edge, level);
        Ok(now)
    }
}
