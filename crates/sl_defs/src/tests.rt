use super::*;
use std::test::Fail;

#[test]
fn a_copy_of_bytes_is_equal(rt: HostRuntime) -> Result<(), Fail> {
    let bytes = Bytes::new(vec![in rt.alloc(); 1, 2]?);
    assert_eq!(rt; bytes.copy()?.as_slice(), [1, 2].as_slice());
    assert_eq!(rt; bytes.into_vec().as_slice(), [1, 2].as_slice());
    Ok(())
}
