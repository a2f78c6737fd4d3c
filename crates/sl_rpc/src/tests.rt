use super::*;
use sl_types::Bytes;
use sl_xdr::put_u32;
use std::alloc::Global;
use std::test::Fail;

/// The bytes of these numbers.
fn text(alloc: Global, numbers: &[u32]) -> Result<Vec<u8>, Fail> {
    let mut out = Vec::new(alloc);
    for number in numbers {
        put_u32(&mut out, *number)?;
    }
    Ok(out)
}

/// What a call of these numbers is answered at once.
fn answer(alloc: Global, numbers: &[u32]) -> Result<Option<Bytes>, Fail> {
    let call = text(alloc, numbers)?;
    Ok(immediate_answer(alloc, &read_call(&call))?)
}

/// Calls with no bytes of credential, and the numbers of their replies.
const ANSWERED: [([u32; 10], &[u32]); 9] = [
    ([5, 0, 2, 100_003, 3, 0, 0, 0, 0, 0], &[5, 1, 0, 0, 0, 0]),
    ([5, 0, 2, 100_003, 3, 0, 6, 0, 0, 0], &[5, 1, 1, 1, 5]),
    ([5, 0, 2, 100_003, 3, 0, 1, 0, 0, 0], &[5, 1, 1, 1, 1]),
    ([5, 0, 3, 100_004, 2, 22, 6, 0, 0, 0], &[5, 1, 1, 0, 2, 2]),
    ([5, 0, 2, 100_004, 2, 22, 6, 0, 0, 0], &[5, 1, 1, 1, 5]),
    ([5, 0, 2, 100_004, 2, 22, 0, 0, 0, 0], &[5, 1, 0, 0, 0, 1]),
    (
        [5, 0, 2, 100_003, 2, 22, 0, 0, 0, 0],
        &[5, 1, 0, 0, 0, 2, 3, 3],
    ),
    (
        [5, 0, 2, 100_003, 2, 0, 0, 0, 0, 0],
        &[5, 1, 0, 0, 0, 2, 3, 3],
    ),
    ([7, 0, 2, 100_003, 3, 22, 0, 0, 0, 0], &[7, 1, 0, 0, 0, 3]),
];

#[test]
fn heads_are_answered(rt: HostRuntime) -> Result<(), Fail> {
    for (call, reply) in ANSWERED.iter() {
        let expected = text(rt.alloc(), reply)?;
        let answered = answer(rt.alloc(), call)?.ok_or("no answer")?;
        assert_eq!(rt; answered.as_slice(), expected.as_slice());
    }
    Ok(())
}

#[test]
fn what_is_no_whole_header_is_no_call(rt: HostRuntime) -> Result<(), Fail> {
    let call = text(rt.alloc(), &[5, 0, 2, 100_003, 3, 0, 0, 0, 0, 0])?;
    for n in 0..40 {
        let (front, _) = call.as_slice().split_at_checked(n).ok_or("too short")?;
        assert!(rt; matches!(read_call(front), Head::NotCall));
    }
    assert!(rt; answer(rt.alloc(), &[5, 1, 2, 100_003, 3, 0, 0, 0, 0, 0])?.is_none());
    Ok(())
}

#[test]
fn a_credential_is_read(rt: HostRuntime) -> Result<(), Fail> {
    // stamp 9, a machine's name of 3 bytes, uid 1000, gid 100, 2 groups
    let call = text(
        rt.alloc(),
        &[
            5,
            0,
            2,
            100_003,
            3,
            1,
            1,
            32,
            9,
            3,
            0x6162_6300,
            1000,
            100,
            2,
            4,
            24,
            0,
            0,
        ],
    )?;
    match read_call(&call) {
        Head::Call {
            procedure,
            cred,
            args,
            ..
        } => {
            assert_eq!(rt; (procedure, args), (1, 72));
            assert_eq!(rt; (cred.uid, cred.gid), (1000, 100));
            assert_eq!(rt; cred.gids.as_slice(), [4, 24].as_slice());
        }
        _ => assert!(rt; false),
    }
    Ok(())
}
