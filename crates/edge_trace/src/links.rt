// Links each edge to the one that follows it.
ghost use Rattle.std.specs.Prelude.{◌≡◌, ◌+◌, ◌-◌, ◌*◌, ◌/◌, ◌%◌, ◌^◌, ◌<◌, ◌≤◌, ◌↔◌, ℕ, Some, IfOk, IsTrue, OnOk, length, replicate, slice_get};
ghost use Rattle.edge_trace.specs.Inner.Sides.{AreRising};
ghost use Rattle.edge_trace.specs.Inner.Links.{AreFollowed, AreFoundFrom, AreInRows, AreRoomy, AreSlots, AreTurnSteps, AreTurns};
ghost use Rattle.edge_trace.specs.Inner.Links.{Follows, IsCut, IsPowerOfTwo, IsRowOf, IsThere, IsWindow, Moves};

use crate::sides::Sides;
use std::alloc::{AllocError, Global};

// The sides that go on from the end of a side: round the cell ahead on the right, round the cell ahead on the left, and
// round the same cell.
#[derive(Clone, Copy)]
pub(crate) struct Turns {
    pub(crate) right: u32,
    pub(crate) straight: u32,
    pub(crate) left: u32,
}

// By the four sides what is added to a side's number for those of its turns, more by `off` so that none is negative. They
// are read where a branch would be as often wrong as right.
#[derive(Clone, Copy)]
pub(crate) struct TurnSteps {
    pub(crate) off: u32,
    pub(crate) right: [u32; 4],
    pub(crate) straight: [u32; 4],
    pub(crate) left: [u32; 4],
}

// The steps for a stride.
fn turn_steps(stride: u32) -> TurnSteps
    requires { stride < 2 ^ 28 }
    ensures { AreTurnSteps stride result }
{
    let row = 4 * stride;
    TurnSteps {
        off: row + 5,
        right: [2 * row + 4, 2 * row + 8, 8, 0],
        straight: [2 * row + 5, row + 9, 5, row + 1],
        left: [row + 6, row + 6, row + 6, row + 2],
    }
}

// The sides that may follow a side.
fn turns_of(number: u32, stride: u32, steps: &TurnSteps) -> Turns
    requires steps { AreTurnSteps stride steps.now }
    requires low { 4 * stride + 4 ≤ number }
    requires high { number + 8 * stride + 8 < 2 ^ 32 }
    ensures { AreTurns stride number result }
{
    let side = (number % 4) as usize;
    Turns {
        right: number + steps.right[side] - steps.off,
        straight: number + steps.straight[side] - steps.off,
        left: number + steps.left[side] - steps.off,
    }
}

// The slot of a number.
fn slot_of(slots: &[u32], number: u32) -> usize
    requires { IsPowerOfTwo (length slots.now) }
    ensures { result ≡ number % length slots.now }
{
    (number & (slots.len() as u32 - 1)) as usize
}

// Slots for the numbers of some rows, each with the index of the number that was noted last, or 0. So it takes no search
// to find where a side stands. Those from `low` on are noted, and below `high`; before `gone` stand those that are not
// needed any more, and from `filled` on those to come.
#[derive(Drop)]
pub(crate) struct Window {
    pub(crate) slots: Vec<u32>,
    pub(crate) low: u32,
    pub(crate) gone: usize,
    pub(crate) high: u32,
    pub(crate) filled: usize,
}

// So many slots, each with the index 0. The only error is want of memory.
pub(crate) fn empty_slots(alloc: Global, count: usize) -> Result<Vec<u32>, AllocError>
    ensures { IfOk result (λ slots. slots.items ≡ replicate count 0) }
{
    vec![in alloc; 0u32; count]
}

impl Window {
    // Empties the slots of the numbers below a bound.
    fn forget(&mut self, numbers: &[u32], low: u32)
        requires rising { AreRising numbers.now }
        requires window { IsWindow numbers.now self.old }
        requires low { self.old.low ≤ low }
        ensures window { IsWindow numbers.now self.new }
        ensures moved { Moves low self.old.high self.old self.new }
    {
        let mut at = self.gone;
        while at < numbers.len() && numbers[at] < low {
            let slot = slot_of(&self.slots, numbers[at]);
            self.slots[slot] = 0;
            at += 1;
        }
        self.gone = at;
        self.low = low;
    }

    // Notes where the numbers below a bound stand.
    fn note(&mut self, numbers: &[u32], high: u32)
        requires rising { AreRising numbers.now }
        requires window { IsWindow numbers.now self.old }
        requires high { self.old.high ≤ high }
        requires narrow { high ≤ self.old.low + length self.old.slots.items }
        requires few { length numbers.now < 2 ^ 32 }
        ensures window { IsWindow numbers.now self.new }
        ensures moved { Moves self.old.low high self.old self.new }
    {
        let mut at = self.filled;
        while at < numbers.len() && numbers[at] < high {
            let slot = slot_of(&self.slots, numbers[at]);
            self.slots[slot] = at as u32;
            at += 1;
        }
        self.filled = at;
        self.high = high;
    }
}

// Whether a side stands at an index, and is one of a component.
fn stands(sides: &Sides, at: u32, number: u32, k: u32) -> bool
    requires sized { length sides.now.owners.items ≡ length sides.now.numbers.items }
    requires at { at < length sides.now.numbers.items }
    ensures { IsTrue result ↔ IsThere sides.now.numbers.items sides.now.owners.items k number at }
{
    (sides.numbers[at as usize] == number) & (sides.owners[at as usize] == k)
}

// The way to a side: the index of its number, and which side of its cell it is, as one number.
fn way_to(at: u32, number: u32) -> u32
    requires { at < 2 ^ 30 }
    ensures index { result / 4 ≡ at }
    ensures side { result % 4 ≡ number % 4 }
{
    4 * at + number % 4
}

// The way to the side that follows the one at an index.
fn follow(sides: &Sides, stride: u32, steps: &TurnSteps, slots: &[u32], e: usize) -> u32
    requires sized { length sides.now.owners.items ≡ length sides.now.numbers.items }
    requires roomy { AreRoomy stride sides.now.numbers.items }
    requires steps { AreTurnSteps stride steps.now }
    requires slots { AreSlots sides.now.numbers.items slots.now }
    requires few { length sides.now.numbers.items < 2 ^ 29 }
    requires wide { 1 ≤ stride }
    requires e { e < length sides.now.numbers.items }
    requires found { AreFoundFrom stride sides.now.numbers.items slots.now e }
    ensures { Follows stride sides.now.numbers.items sides.now.owners.items e result }
{
    let number = sides.numbers[e];
    let k = sides.owners[e];
    let turns = turns_of(number, stride, steps);
    let right = slots[slot_of(slots, turns.right)];
    let straight = slots[slot_of(slots, turns.straight)];
    let left = slots[slot_of(slots, turns.left)];
    let goes_right = stands(sides, right, turns.right, k);
    let goes_straight = stands(sides, straight, turns.straight, k);
    // all three at once: a jump by the turn would be as often wrong as right
    let to_right = way_to(right, turns.right);
    let to_straight = way_to(straight, turns.straight);
    let to_left = way_to(left, turns.left);
    if goes_right {
        return to_right;
    }
    if goes_straight {
        return to_straight;
    }
    to_left
}

// Links the sides of a row.
fn link_row(
    sides: &Sides,
    stride: u32,
    steps: &TurnSteps,
    window: &Window,
    ways: &mut Vec<u32>,
    end: u32,
) -> Result<(), AllocError>
    requires sized { length sides.now.owners.items ≡ length sides.now.numbers.items }
    requires rising { AreRising sides.now.numbers.items }
    requires roomy { AreRoomy stride sides.now.numbers.items }
    requires steps { AreTurnSteps stride steps.now }
    requires few { length sides.now.numbers.items < 2 ^ 29 }
    requires wide { 1 ≤ stride }
    requires window { IsWindow sides.now.numbers.items window.now }
    requires here { IsRowOf stride sides.now.numbers.items window.now end (length ways.old.items) }
    requires followed { AreFollowed stride sides.now.numbers.items sides.now.owners.items ways.old.items }
    ensures followed { OnOk result (AreFollowed stride sides.now.numbers.items sides.now.owners.items ways.new.items) }
    ensures cut { OnOk result (IsCut sides.now.numbers.items end (length ways.new.items)) }
{
    'linking: while ways.len() < sides.numbers.len() && sides.numbers[ways.len()] < end {
        ways.push(follow(sides, stride, steps, &window.slots, ways.len()))?;
    }
    Ok(())
}

// By edge the way to the edge that follows it, for the edges of so many rows. The only error is want of memory.
pub(crate) fn links(
    alloc: Global,
    sides: &Sides,
    stride: u32,
    nrows: u32,
) -> Result<Vec<u32>, AllocError>
    requires sized { length sides.now.owners.items ≡ length sides.now.numbers.items }
    requires rising { AreRising sides.now.numbers.items }
    requires roomy { AreRoomy stride sides.now.numbers.items }
    requires few { length sides.now.numbers.items < 2 ^ 29 }
    requires power { IsPowerOfTwo (16 * stride) }
    requires wide { 3 ≤ stride }
    requires room { (nrows + 3) * (4 * stride) + 4 < 2 ^ 32 }
    requires rows { AreInRows stride nrows sides.now.numbers.items }
    ensures linked { IfOk result (λ ways. length ways.items ≡ length sides.now.numbers.items) }
    ensures follows { IfOk result (λ ways.
        AreFollowed stride sides.now.numbers.items sides.now.owners.items ways.items) }
{
    let mut ways = Vec::with_capacity(alloc, sides.numbers.len())?;
    if sides.numbers.is_empty() {
        return Ok(ways);
    }
    let row = 4 * stride;
    let steps = turn_steps(stride);
    let mut window = Window {
        slots: empty_slots(alloc, 4 * row as usize)?,
        low: 0,
        gone: 0,
        high: 0,
        filled: 0,
    };
    for at in 0..nrows {
        let here = (at + 1) * row;
        window.forget(&sides.numbers, here.saturating_sub(row + 5));
        window.note(&sides.numbers, here + 2 * row + 4);
        link_row(sides, stride, &steps, &window, &mut ways, here + row)?;
    }
    Ok(ways)
}
