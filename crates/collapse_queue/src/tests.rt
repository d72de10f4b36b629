ghost use Rattle.oemm_lists.specs.Ascending.{IsAboveLast};
ghost use Rattle.std.specs.Prelude.{◌+◌, OnOk};

use super::*;
use mesh_data::{Name, NameSet};
use std::alloc::{AllocError, Global};
use std::test::Fail;

/// What is done with a queue, and what it answers.
#[derive(Clone, Copy, Debug)]
enum Call {
    /// An item of this cost, these names and this stamp is put in.
    Push(i128, u32, u32, u64),
    /// The name gets the stamp.
    Restamp(u32, u64),
    /// There is no room for one more item.
    Full,
    /// An item of this cost and these names comes out.
    Pop(i128, u32, u32),
    /// No item is live.
    Empty,
}

const TIES: [Call; 11] = [
    Call::Push(5, 1, 2, 0),
    Call::Push(5, 0, 9, 0),
    Call::Push(6, 0, 1, 0),
    Call::Push(5, 1, 0, 0),
    Call::Push(4, 7, 8, 0),
    Call::Pop(4, 7, 8),
    Call::Pop(5, 0, 9),
    Call::Pop(5, 1, 0),
    Call::Pop(5, 1, 2),
    Call::Pop(6, 0, 1),
    Call::Empty,
];

const STALE: [Call; 10] = [
    Call::Push(1, 0, 1, 0),
    Call::Push(2, 2, 0, 0),
    Call::Push(3, 0, 4, 7),
    Call::Restamp(0, 7),
    Call::Pop(2, 2, 0),
    Call::Pop(3, 0, 4),
    Call::Empty,
    Call::Push(1, 0, 1, 6),
    Call::Push(9, 0, 1, 8),
    Call::Pop(9, 0, 1),
];

const ROOM: [Call; 9] = [
    Call::Push(1, 0, 1, 0),
    Call::Push(2, 2, 1, 0),
    Call::Full,
    Call::Restamp(2, 1),
    Call::Push(3, 1, 0, 0),
    Call::Full,
    Call::Pop(1, 0, 1),
    Call::Pop(3, 1, 0),
    Call::Empty,
];

/// Adds a name to those below it.
fn add_name(names: &mut NameSet, v: u32) -> Result<(), AllocError>
    requires { IsAboveLast v names.old }
    ensures { OnOk result (IsAboveLast (v + 1) names.new) }
{
    names.add(Name(v))
}

/// The names below a number.
fn first_names(alloc: Global, below: u32) -> Result<NameSet, AllocError> {
    let mut names = NameSet::new(alloc);
    for v in 0..below {
        add_name(&mut names, v)?;
    }
    Ok(names)
}

/// Puts an item in, if there is room.
fn push_in(queue: &mut Queue, item: Candidate) -> bool {
    if !queue.has_room() {
        return false;
    }
    queue.push(item);
    true
}

/// Gives a name a stamp, if it has a lesser one.
fn restamp(queue: &mut Queue, u: Name, stamp: u64) -> bool {
    match queue.stamp_of(u) {
        Some(old) if old < stamp => {
            queue.restamp(u, stamp);
            true
        }
        _ => false,
    }
}

/// Makes the call, if it may be made, and tells whether the queue answers so.
fn answers(queue: &mut Queue, call: &Call) -> bool {
    match *call {
        Call::Push(cost, u, v, stamp) => push_in(
            queue,
            Candidate {
                cost,
                u: Name(u),
                v: Name(v),
                stamp,
            },
        ),
        Call::Restamp(u, stamp) => restamp(queue, Name(u), stamp),
        Call::Full => !queue.has_room(),
        Call::Pop(cost, u, v) => match queue.pop_least() {
            Some(item) => item.cost == cost && item.u.0 == u && item.v.0 == v,
            None => false,
        },
        Call::Empty => queue.pop_least().is_none(),
    }
}

#[test]
fn what_comes_out(rt: HostRuntime) -> Result<(), Fail> {
    let names = first_names(rt.alloc(), 8)?;
    for (room, calls) in [(5, &TIES[..]), (5, &STALE[..]), (2, &ROOM[..])] {
        let mut queue = Queue::with_room(rt.alloc(), room, &names)?;
        for call in calls {
            assert!(rt; answers(&mut queue, call), "{room} {call:?}");
        }
    }
    Ok(())
}
