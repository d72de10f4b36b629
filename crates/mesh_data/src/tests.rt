use super::*;
use std::test::Fail;

#[test]
fn lists_and_sets_grow_and_copy(rt: HostRuntime) -> Result<(), Fail> {
    let mut core = LeafSet::new(rt.alloc());
    assert!(rt; core.push(LeafNo(3)).is_ok());
    core.add(LeafNo(5))?;
    let mut names = NameSet::new(rt.alloc());
    assert!(rt; names.push(Name(7)).is_ok());
    assert_eq!(rt; names.copy(rt.alloc())?.slice(), [Name(7)].as_slice());
    assert!(rt; names.has(Name(7)) && !names.has(Name(6)));
    let other = NameSet::of(Names::from_vec(vec![in rt.alloc(); Name(9)]?));
    assert!(rt; other.has(Name(9)) && !other.has(Name(7)));
    let mut edits = Edits::new(rt.alloc());
    let to = Point { x: 1, y: -2, z: 3 };
    assert!(rt; edits.push(Edit::Move { v: Name(7), to }).is_ok());
    assert!(rt; !edits.is_empty());
    let task = Task {
        lane: Lane(4),
        number: 1,
        low: to,
        high: to,
        edits,
    };
    let mut replies = Replies::new(rt.alloc());
    assert!(rt; replies.push(Reply::Done).is_ok());
    let entry = Entry {
        task,
        wide: false,
        replies,
        core,
    };
    let copy = entry.copy(rt.alloc())?;
    assert_eq!(rt; copy.task.edits.len(), 1);
    assert_eq!(rt; *copy.task.edits.at(0), Edit::Move { v: Name(7), to });
    assert_eq!(rt; copy.replies.slice(), [Reply::Done].as_slice());
    assert_eq!(rt; copy.core.len(), 2);
    assert_eq!(rt; copy.core.at(0), LeafNo(3));
    Ok(())
}
