//! Cores that share leaves, and cores that do not.

ghost use Rattle.std.specs.Prelude.{◌<◌, IfOk};
ghost use Rattle.oemm_octree.specs.Leaves.{AreBelow};

use super::*;
use mesh_data::{Lane, LeafNo, LeafSet};
use std::alloc::{AllocError, Global};
use std::test::Fail;

/// Two of eight leaves.
fn pair(alloc: Global, low: u32, high: u32) -> Result<LeafSet, AllocError>
    requires ascend { low < high }
    requires below { high < 8 }
    ensures { IfOk result (AreBelow 8) }
{
    let mut core = LeafSet::new(alloc);
    core.add(LeafNo(low))?;
    core.add(LeafNo(high))?;
    Ok(core)
}

fn busy(leaf: u32, lane: u8) -> Result<(), Busy> {
    Err(Busy {
        leaf: LeafNo(leaf),
        lane: Lane(lane),
    })
}

#[test]
fn cores_that_share_leaves(rt: HostRuntime) -> Result<(), Fail> {
    let alloc = rt.alloc();
    let mut table = Table::new(alloc, 8)?;
    let core = pair(alloc, 4, 6)?;
    let least_free = pair(alloc, 0, 6)?;
    let both_held = pair(alloc, 4, 6)?;
    let apart = pair(alloc, 1, 5)?;
    assert_eq!(rt; table.take(&core, Lane(3)), Ok(()));
    assert_eq!(rt; table.take(&least_free, Lane(9)), busy(6, 3));
    assert_eq!(rt; table.holder(LeafNo(0)), None);
    assert_eq!(rt; table.take(&both_held, Lane(3)), busy(4, 3));
    assert_eq!(rt; table.take(&apart, Lane(63)), Ok(()));
    assert_eq!(rt; table.holder(LeafNo(5)), Some(Lane(63)));
    table.release(&core);
    assert_eq!(rt; table.holder(LeafNo(6)), None);
    assert_eq!(rt; table.holder(LeafNo(5)), Some(Lane(63)));
    assert_eq!(rt; table.take(&least_free, Lane(9)), Ok(()));
    assert_eq!(rt; table.holder(LeafNo(6)), Some(Lane(9)));
    assert_eq!(rt; table.holder(LeafNo(8)), None);
    Ok(())
}
