// Follows the chain of each component once.
ghost use Rattle.std.specs.Prelude.{◌≡◌, ◌+◌, ◌<◌, ℕ, [], Some, Contains, IfOk, OnOk, length, slice_get};
ghost use Rattle.sieve_core.specs.declared.targets.Target.TheVariants.{Unknown};
ghost use Rattle.sieve_core.specs.Inner.Neighbours.{AreLargest};
ghost use Rattle.sieve_core.specs.Inner.Targets.{AreKnown, AreKnownBelow, AreRight, AreTargets, IsFollowed, IsIdle, Settles, target_at};

use region_label::Regions;
use std::alloc::{AllocError, Global};

// What is known of the chain of a component.
#[derive(Clone, Copy)]
pub(crate) enum Target {
    // Nothing yet.
    Unknown,
    // It is on the chain that is being followed.
    UnderWay,
    // It takes the value of this component.
    Takes(u32),
    // It keeps its value.
    Stays,
}

// Follows a chain that isn't known to its end, noting its small members. None where no member is large enough.
fn follow<const EIGHT: bool>(
    regions: &Regions,
    st: u32,
    largest: &[Option<u32>],
    targets: &mut [Target],
    path: &mut Vec<u32>,
    start: u32,
) -> Result<Option<u32>, AllocError>
    requires known { AreKnown regions.now }
    requires largest { AreLargest EIGHT regions.now st largest.now }
    requires right { AreRight EIGHT regions.now st targets.old }
    requires idle { IsIdle targets.old }
    requires empty { path.old.items ≡ [] }
    requires start { start < length regions.now.firsts }
    requires unknown { slice_get targets.old start ≡ Some Unknown }
    ensures { IfOk result (IsFollowed EIGHT regions.now st targets.old targets.new path.new.items start) }
{
    let mut at = start;
    loop {
        match targets[at as usize] {
            Target::Takes(end) => return Ok(Some(end)),
            Target::Stays => return Ok(None),
            Target::UnderWay => return Ok(None),
            Target::Unknown => {}
        }
        if regions.size(at) >= st {
            return Ok(Some(at));
        }
        path.push(at)?;
        targets[at as usize] = Target::UnderWay;
        let Some(next) = largest[at as usize] else {
            return Ok(None);
        };
        at = next;
    }
}

// The target of the members of a chain with this end.
fn target_of(end: Option<u32>) -> Target
    ensures { result ≡ target_at end }
{
    match end {
        Some(end) => Target::Takes(end),
        None => Target::Stays,
    }
}

// Gives the members of a chain their target.
fn settle(targets: &mut [Target], path: &[u32], start: u32, target: Target)
    requires start { start < length targets.old }
    requires path { (k : ℕ) → Contains path.now k → k < length targets.old }
    ensures { Settles targets.old targets.new path.now start target }
{
    for member in path {
        targets[*member as usize] = target;
    }
    targets[start as usize] = target;
}

// Follows the chain of a component, if it isn't known yet.
fn find_target<const EIGHT: bool>(
    regions: &Regions,
    st: u32,
    largest: &[Option<u32>],
    targets: &mut [Target],
    path: &mut Vec<u32>,
    k: u32,
) -> Result<(), AllocError>
    requires known { AreKnown regions.now }
    requires largest { AreLargest EIGHT regions.now st largest.now }
    requires right { AreRight EIGHT regions.now st targets.old }
    requires idle { IsIdle targets.old }
    requires empty { path.old.items ≡ [] }
    requires k { k < length regions.now.firsts }
    requires below { AreKnownBelow targets.old k }
    ensures right { OnOk result (AreRight EIGHT regions.now st targets.new) }
    ensures idle { OnOk result (IsIdle targets.new) }
    ensures empty { OnOk result (path.new.items ≡ []) }
    ensures below { OnOk result (AreKnownBelow targets.new (k + 1)) }
{
    let Target::Unknown = targets[k as usize] else {
        return Ok(());
    };
    let end = follow::<EIGHT>(regions, st, largest, targets, path, k)?;
    settle(targets, path, k, target_of(end));
    path.clear();
    Ok(())
}

// The target of each component. The only error is want of memory.
pub(crate) fn targets_of<const EIGHT: bool>(
    alloc: Global,
    regions: &Regions,
    st: u32,
    largest: &[Option<u32>],
) -> Result<Vec<Target>, AllocError>
    requires known { AreKnown regions.now }
    requires largest { AreLargest EIGHT regions.now st largest.now }
    ensures { IfOk result (λ targets. AreTargets EIGHT regions.now st targets.items) }
{
    let mut targets = vec![in alloc; Target::Unknown; regions.count() as usize]?;
    let mut path = Vec::new(alloc);
    for k in 0..regions.count() {
        find_target::<EIGHT>(regions, st, largest, &mut targets, &mut path, k)?;
    }
    Ok(targets)
}
