use super::*;
use std::test::Fail;

#[test]
fn parts_are_written_and_read_again(rt: HostRuntime) -> Result<(), Fail> {
    let mut out = Vec::new(rt.alloc());
    put(&mut out, b"a ")?;
    put_decimal(&mut out, 18446744073709551615)?;
    assert_eq!(rt; out.as_slice(), b"a 18446744073709551615".as_slice());
    let (_, number) = cut(&out);
    assert_eq!(rt; number_u64(number), 18446744073709551615);
    assert_eq!(rt; number_u32(b"4294967295"), 4294967295);
    assert_eq!(rt; number_u8(b"255"), 255);
    assert_eq!(rt; behind(b"tick 1", b"tick "), Some(b"1".as_slice()));
    out.clear();
    put_hex(&mut out, &[0, 171, 255])?;
    assert_eq!(rt; out.as_slice(), b"00abff".as_slice());
    assert_eq!(rt;
        hex_bytes(rt.alloc(), &out)?.as_slice(),
        [0, 171, 255].as_slice()
    );
    out.clear();
    put_hex(&mut out, &[])?;
    assert_eq!(rt; out.as_slice(), b"-".as_slice());
    assert_eq!(rt; hex_bytes(rt.alloc(), b"-")?.as_slice().len(), 0);
    Ok(())
}
