use crate::file_bytes;
use std::test::Fail;

#[test]
fn missing_file_is_empty(rt: HostRuntime) -> Result<(), Fail> {
    assert_eq!(rt; file_bytes(&rt, "there-is-no-such-file")?.len(), 0);
    Ok(())
}
