ghost use Rattle.std.specs.Prelude.{◌≡◌, length, IfOk};

use super::*;
use sl_types::{ArgsFault, Bytes, Kind, Name, Write};
use sl_xdr::{Cursor, put_u64};
use std::alloc::Global;
use std::test::Fail;

/// The name `abc` of object 9 in directory 1.
const NAME_CELL: &[u8] =
    b"\0\0\0\0\0\0\0\x01\0\0\0\x03abc\0\0\0\0\0\0\0\0\x09\0\0\0\x05\0\0\0\0\0\0\0\x03";

/// Each kind of change, the first of the symbolic link 9 to `there`.
const CHANGES: &[u8] =
    b"\0\0\0\x05\0\0\0\x01\0\0\0\x05\0\0\x01\xed\0\0\0\x02\0\0\0\0\0\0\0\0\0\0\0\0\0\0\0\0\0\0\0\0\0\0\0\0\0\0\0\0\0\0\0\0\0\0\0\0\0\0\0\x07\0\0\0\0\0\0\0\x09\0\0\0\x01\0\0\0\x02\0\0\0\x03\0\0\0\x04\0\0\0\x05\0\0\0\x06\0\0\0\0\0\0\0\0\0\0\0\0\0\0\0\0\0\0\0\0\0\0\0\0\0\0\0\x01\0\0\0\0\0\0\0\x0b\0\0\0\x05there\0\0\0\0\0\0\x02\0\0\0\0\0\0\0\x09\0\0\0\x03\0\0\0\0\0\0\0\x01\0\0\0\x03abc\0\0\0\0\0\0\0\0\x09\0\0\0\x05\0\0\0\0\0\0\0\x03\0\0\0\x04\0\0\0\0\0\0\0\x01\0\0\0\x03abc\0\0\0\0\x05\0\0\0\x02\0\0\x01\xed\0\0\0\x02\0\0\0\0\0\0\0\0\0\0\0\0\0\0\0\0\0\0\0\0\0\0\0\0\0\0\0\0\0\0\0\0\0\0\0\0\0\0\0\x07\0\0\0\0\0\0\0\x01\0\0\0\x01\0\0\0\x02\0\0\0\x03\0\0\0\x04\0\0\0\x05\0\0\0\x06";

fn abc(alloc: Global) -> Result<Name, Fail>
    ensures { IfOk result (λ n. length n ≡ 3) }
{
    let items = Vec::from_slice(alloc, b"abc")?;
    Ok(Name::new(Bytes::new(items)))
}

/// Whether the whole bytes are such an item.
fn is_read<T: Item>(item: &Result<T, ArgsFault>, cursor: &Cursor<'_>) -> bool {
    item.is_ok() && cursor.rest().is_empty()
}

fn are_changes(alloc: Global, bytes: &[u8]) -> bool {
    let mut cursor = Cursor::new(bytes);
    let changes = Changes::take(alloc, &mut cursor);
    is_read(&changes, &cursor)
}

#[test]
fn a_name_cell_has_these_bytes(rt: HostRuntime) -> Result<(), Fail> {
    let cell = NameCell {
        dir: 1,
        name: abc(rt.alloc())?,
        fileid: 9,
        kind: Kind::Lnk,
        cookie: 3,
    };
    let mut out = Vec::new(rt.alloc());
    cell.put(&mut out)?;
    assert_eq!(rt; out.as_slice(), NAME_CELL);
    let mut cursor = Cursor::new(&out);
    let again = NameCell::take(rt.alloc(), &mut cursor)?;
    let copy = again.copy()?;
    assert_eq!(rt; copy.name.as_slice(), b"abc".as_slice());
    assert_eq!(rt;
        (copy.dir, copy.fileid, copy.kind, copy.cookie),
        (1, 9, Kind::Lnk, 3)
    );
    Ok(())
}

#[test]
fn keys_are_read_again(rt: HostRuntime) -> Result<(), Fail> {
    let mut out = Vec::new(rt.alloc());
    CellKey::Name(1, abc(rt.alloc())?).put(&mut out)?;
    CellKey::Attr(9).put(&mut out)?;
    assert_eq!(rt; out.len(), 32);
    let mut cursor = Cursor::new(&out);
    let name = CellKey::take(rt.alloc(), &mut cursor)?;
    let attributes = CellKey::take(rt.alloc(), &mut cursor)?;
    assert!(rt; matches!(name.copy()?, CellKey::Name(1, _)));
    assert!(rt; matches!(attributes.copy()?, CellKey::Attr(9)));
    Ok(())
}

#[test]
fn whole_changes_alone_are_read(rt: HostRuntime) -> Result<(), Fail> {
    assert!(rt; are_changes(rt.alloc(), CHANGES));
    for length in 0..CHANGES.len() {
        assert!(rt; !are_changes(rt.alloc(), &CHANGES[..length]), "{length}");
    }
    let mut cursor = Cursor::new(CHANGES);
    let changes = Changes::take(rt.alloc(), &mut cursor)?;
    let copy = changes.copy()?;
    assert_eq!(rt; copy.as_slice().len(), 5);
    match copy.as_slice() {
        [Change::PutAttr(link), ..] => {
            assert_eq!(rt; link.attributes.fileid, 9);
            assert_eq!(rt; link.verifier, Some(11));
            assert_eq!(rt; link.link.as_slice(), b"there".as_slice());
        }
        _ => assert!(rt; false, "{copy:?}"),
    }
    Ok(())
}

#[test]
fn padding_is_zero(rt: HostRuntime) -> Result<(), Fail> {
    let mut bytes = NAME_CELL.to_vec(rt.alloc())?;
    if let Some(byte) = bytes.get_mut(15) {
        *byte = 1;
    }
    let mut cursor = Cursor::new(&bytes);
    let fault = NameCell::take(rt.alloc(), &mut cursor).err();
    assert_eq!(rt; fault, Some(ArgsFault::Garbage));
    Ok(())
}

#[test]
fn fileids_have_46_bits(rt: HostRuntime) -> Result<(), Fail> {
    let cases = [
        (0, false, true),
        (1, true, true),
        ((1 << 46) - 1, true, true),
        (1 << 46, false, false),
    ];
    for (number, is_fileid, or_none) in cases {
        let mut out = Vec::new(rt.alloc());
        put_u64(&mut out, number)?;
        assert_eq!(rt; take_id(&mut Cursor::new(&out)).is_ok(), is_fileid);
        assert_eq!(rt; take_id_or_none(&mut Cursor::new(&out)).is_ok(), or_none);
    }
    Ok(())
}

#[test]
fn writes_are_read_again(rt: HostRuntime) -> Result<(), Fail> {
    let write = Write {
        offset: 65_536,
        bytes: Bytes::new(Vec::from_slice(rt.alloc(), b"b")?),
    };
    let mut out = Vec::new(rt.alloc());
    write.put(&mut out)?;
    let mut cursor = Cursor::new(&out);
    let again = Item::copy(&<Write as Item>::take(rt.alloc(), &mut cursor)?)?;
    assert_eq!(rt; again.offset, 65_536);
    assert_eq!(rt; again.bytes.as_slice(), b"b".as_slice());
    Ok(())
}
