ghost use Rattle.std.specs.Prelude.{◌≡◌, ◌+◌, ◌<◌, IfOk, OnOk, Some, length, slice_get};
ghost use Rattle.region_parts.specs.Parts.{AreOverGrid, parts_of};
ghost use Rattle.region_parts.specs.Inner.Lists.{AreLinked};

use region_label::Regions;
use std::alloc::{AllocError, Global};
use std::marker::Model;

// By part the next one of its component, or the number of parts where none follows; by component its first part.
#[derive(Drop)]
struct Lists {
    links: Vec<u32>,
    firsts: Vec<u32>,
}

impl Lists {
    // Puts a part in front of the list of the component that has its first cell.
    fn put(&mut self, regions: &Regions, others: &Regions, at: u32)
        requires grid { AreOverGrid regions.now others.now }
        requires at { at < length others.now.firsts }
        requires linked { AreLinked regions.now others.now self.old (at + 1) }
        ensures { AreLinked regions.now others.now self.new at }
    {
        let (row, col) = others.first(at);
        if let Some(k) = regions.region_of(row, col) {
            self.links[at as usize] = self.firsts[k as usize];
            self.firsts[k as usize] = at;
        }
    }

    // The parts of each component, from the last part to the first. The only error is want of memory.
    fn make(alloc: Global, regions: &Regions, others: &Regions) -> Result<Lists, AllocError>
        requires grid { AreOverGrid regions.now others.now }
        ensures { IfOk result (λ lists. AreLinked regions.now others.now lists 0) }
    {
        let end = others.count();
        let links = vec![in alloc; end; end as usize]?;
        let firsts = vec![in alloc; end; regions.count() as usize]?;
        let mut lists = Lists { links, firsts };
        let mut at = end;
        'parts: while at > 0 {
            at -= 1;
            lists.put(regions, others, at);
        }
        Ok(lists)
    }
}

/// The parts of components: by component, the numbers of those components of another labelling of the same grid that
/// lie in it, as the parts that share sides of a component whose cells meet at corners too.
#[derive(Drop)]
pub struct Parts {
    lists: Lists,
}

impl Model for Parts {
    ghost use Rattle.std.specs.Prelude.{List, ℕ};
    ghost use Rattle.region_parts.specs.Inner.Lists.{AllEnd, lists_of};

    ghost Value = { List (List ℕ) };

    ghost view = { λ parts. lists_of parts.lists };

    ghost invariant = { λ parts. AllEnd parts.lists };
}

impl Parts {
    /// The parts of each component, in order of their numbers. The only error is want of memory.
    ///
    /// Source: this project's own.
    pub fn of(alloc: Global, regions: &Regions, others: &Regions) -> Result<Parts, AllocError>
        requires { AreOverGrid regions.now others.now }
        ensures { IfOk result (λ parts. parts ≡ parts_of regions.now others.now) }
    {
        let lists = Lists::make(alloc, regions, others)?;
        Ok(Parts { lists })
    }

    /// Puts the parts of a component into a list, in place of what it holds. The only error is want of memory; the list
    /// then holds some of them.
    pub fn list(&self, k: u32, out: &mut Vec<u32>) -> Result<(), AllocError>
        requires { k < length self.now }
        ensures { OnOk result (slice_get self.now k ≡ Some out.new.items) }
    {
        out.clear();
        let mut at = self.lists.firsts[k as usize];
        'parts: while (at as usize) < self.lists.links.len() {
            out.push(at)?;
            at = self.lists.links[at as usize];
        }
        Ok(())
    }
}
