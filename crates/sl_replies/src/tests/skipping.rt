use super::{RESULTS, is_read, text};
use crate::is_reply;
use std::test::Fail;

#[test]
fn whole_results_alone_are_replies(rt: HostRuntime) -> Result<(), Fail> {
    for (procedure, numbers) in RESULTS.iter() {
        let mut bytes = text(rt.alloc(), numbers)?;
        assert!(rt; is_reply(*procedure, &bytes), "{procedure}");
        for n in 0..bytes.len() {
            assert!(rt; !is_reply(*procedure, &bytes[..n]), "{procedure}");
        }
        bytes.push(0)?;
        assert!(rt; !is_reply(*procedure, &bytes), "{procedure}");
    }
    Ok(())
}

#[test]
fn replies_are_what_can_be_read(rt: HostRuntime) -> Result<(), Fail> {
    for (_, numbers) in RESULTS.iter() {
        let bytes = text(rt.alloc(), numbers)?;
        for procedure in 0..23 {
            let read = is_read(rt.alloc(), procedure, &bytes);
            assert_eq!(rt; is_reply(procedure, &bytes), read, "{procedure}");
        }
    }
    Ok(())
}

#[test]
fn a_list_that_goes_on_is_no_reply(rt: HostRuntime) -> Result<(), Fail> {
    let bytes = text(rt.alloc(), &[0, 0, 0, 0, 1, 0, 1])?;
    assert!(rt; !is_reply(16, &bytes));
    Ok(())
}
