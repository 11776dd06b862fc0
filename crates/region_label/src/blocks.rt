// The blocks that the runs of a grid are in.
ghost use Rattle.std.specs.Prelude.{◌≡◌, ◌<◌, ◌↔◌, length, slice_index, true};
ghost use Rattle.region_label.specs.Inner.Blocks.{first_runs, last_runs};

// Runs of equal units that lie one below the other with the same ends. No other run of their units touches a run between
// the first and the last, so that a fill need not look at those.
#[derive(Clone, Copy)]
pub(crate) struct Block {
    pub(crate) first: u32,
    pub(crate) last: u32,
}

// The block of each run, and the ends of each block, where blocks pay. Else both are empty, and each run is a block of its
// own with the run's number, so that a fill reads no more than it would without blocks.
#[derive(Drop)]
pub(crate) struct Blocks {
    pub(crate) of: Vec<u32>,
    pub(crate) ends: Vec<Block>,
}

impl Blocks {
    // Whether each run is a block of its own.
    pub(crate) fn are_runs(&self) -> bool
        ensures { (result ≡ true) ↔ (length self.now.of.items ≡ 0) }
    {
        self.of.is_empty()
    }

    // The number of the blocks of so many runs.
    pub(crate) fn count(&self, runs: usize) -> usize
        ensures alone { length self.now.of.items ≡ 0 → result ≡ runs }
        ensures kept { 0 < length self.now.of.items → result ≡ length self.now.ends.items }
    {
        if self.of.is_empty() {
            runs
        } else {
            self.ends.len()
        }
    }

    // The block of a run.
    pub(crate) fn block_of(&self, run: u32) -> u32
        requires { 0 < length self.now.of.items → run < length self.now.of.items }
        ensures alone { length self.now.of.items ≡ 0 → result ≡ run }
        ensures kept { 0 < length self.now.of.items → result ≡ slice_index self.now.of.items run }
    {
        if self.of.is_empty() {
            run
        } else {
            self.of[run as usize]
        }
    }

    // The ends of a block.
    pub(crate) fn block(&self, b: u32) -> Block
        requires { 0 < length self.now.of.items → b < length self.now.ends.items }
        ensures first_alone { length self.now.of.items ≡ 0 → result.first ≡ b }
        ensures last_alone { length self.now.of.items ≡ 0 → result.last ≡ b }
        ensures first { 0 < length self.now.of.items → result.first ≡ slice_index (first_runs self.now.ends.items) b }
        ensures last { 0 < length self.now.of.items → result.last ≡ slice_index (last_runs self.now.ends.items) b }
    {
        if self.of.is_empty() {
            Block { first: b, last: b }
        } else {
            self.ends[b as usize]
        }
    }
}
