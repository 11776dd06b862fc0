ghost use Rattle.std.specs.Prelude.{◌≡◌, ◌<◌, Some, length};
ghost use Rattle.region_label.specs.Inner.Table.{IsOnList, following as after, runs_from};

use cell_base::Run;
use std::marker::Model;

/// The runs of a component one by one. Contracts see those that are left.
#[derive(Drop)]
pub struct RunWalk<'a> {
    runs: &'a [Run],
    links: &'a [u32],
    next: Option<u32>,
}

impl<'a> Model for RunWalk<'a> {
    ghost use Rattle.std.specs.Prelude.{List};
    ghost use Rattle.region_label.specs.Run.{Run};
    ghost use Rattle.region_label.specs.Inner.Table.{IsWalkOf, runs_from};

    ghost Value = { List Run };

    ghost view = { λ walk. runs_from walk.runs.now walk.links.now walk.next };

    ghost invariant = { λ walk. IsWalkOf walk.runs.now walk.links.now walk.next };
}

// The run after one in its list, if it isn't the last.
fn following(links: &[u32], run: u32) -> Option<u32>
    requires { run < length links.now }
    ensures { result ≡ after links.now run }
{
    let link = links[run as usize];
    if link == run { None } else { Some(link) }
}

impl<'a> RunWalk<'a> {
    // The runs of a linked list from one on.
    pub(crate) fn from(runs: &'a [Run], links: &'a [u32], start: u32) -> RunWalk<'a>
        requires sized { length links.now ≡ length runs.now }
        requires on { IsOnList (length runs.now) links.now start }
        ensures { result ≡ runs_from runs.now links.now (Some start) }
    {
        RunWalk {
            runs,
            links,
            next: Some(start),
        }
    }
}

impl<'a> Iterator for RunWalk<'a> {
    type Item = Run;

    ghost use Rattle.std.specs.Iterator.{YieldsFirst, item_count};

    ghost next_gives = { YieldsFirst (λ rest. rest) };

    ghost remaining = { item_count (λ rest. rest) };

    fn next(&mut self) -> Option<Run> {
        let at = self.next?;
        self.next = following(self.links, at);
        Some(self.runs[at as usize])
    }
}
