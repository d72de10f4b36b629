use super::*;
use std::test::Fail;

#[test]
fn lists_grow_and_copy(rt: HostRuntime) -> Result<(), Fail> {
    let mut bytes = Bytes::from_vec(vec![in rt.alloc(); 1u8, 2]?);
    assert!(rt; bytes.push(3).is_ok());
    bytes.add(4)?;
    assert_eq!(rt; bytes.copy(rt.alloc())?.slice(), [1u8, 2, 3, 4].as_slice());
    assert_eq!(rt; *bytes.at(2), 3);
    assert_eq!(rt; bytes.len(), 4);
    assert!(rt; !bytes.is_empty());
    assert!(rt; bytes == bytes.copy(rt.alloc())?);
    assert_eq!(rt; bytes.into_vec().len(), 4);
    assert!(rt; Bytes::new(rt.alloc()).is_empty());
    Ok(())
}
