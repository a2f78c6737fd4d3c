use super::*;
use std::test::Fail;
use std::{env, fs};

/// Two writes behind a sync, one over the old end and one past a gap, as each image shows them.
#[test]
fn images_show_writes(rt: HostRuntime) -> Result<(), Fail> {
    let alloc = rt.alloc();
    let wanted = [
        b"abcd".to_vec(alloc)?,
        b"abxyz\0\0uv".to_vec(alloc)?,
        b"abxd\0\0\0u\0".to_vec(alloc)?,
        b"ab\xf7\xf8\xf9\xfa\xfb\xfc\xfd".to_vec(alloc)?,
        b"ab\x9e\x9f\xa0\xa1\xa2\xa3\xa4".to_vec(alloc)?,
        b"abEFGHIJK".to_vec(alloc)?,
        b"ab\xec\xed\xee\xef\xf0\xf1\xf2".to_vec(alloc)?,
        b"ab\x93\x94\x95\x96\x97\x98\x99".to_vec(alloc)?,
    ];
    for (image, bytes) in wanted.iter().enumerate() {
        let mut shelf = MemShelf::new(alloc)?;
        shelf.write_at(5, 0, b"abcd")?;
        shelf.sync(5)?;
        shelf.write_at(5, 2, b"xyz")?;
        shelf.write_at(5, 7, b"uv")?;
        shelf.crash(5, image as u64)?;
        let mut found = [0; 16];
        let some = shelf.read(5, 0, &mut found)?;
        let (front, _) = found.split_at(some);
        assert_eq!(rt; front, bytes.as_slice(), "image {image}");
    }
    Ok(())
}

#[test]
fn an_armed_call_fails_or_stops(rt: HostRuntime) -> Result<(), Fail> {
    let mut shelf = MemShelf::new(rt.alloc())?;
    shelf.arm(0, 2, Arm::Fail);
    shelf.write_at(0, 0, b"abc")?;
    assert!(rt; shelf.sync(0) == Err(ShelfFault::Failed));
    shelf.arm(0, 1, Arm::Stop(0));
    assert!(rt; shelf.len(1) == Ok(0));
    assert!(rt; shelf.sync(0) == Err(ShelfFault::Stopped));
    assert!(rt; shelf.len(0) == Ok(0));
    shelf.write_at(0, 0, b"abcdef")?;
    shelf.cut(0, 2)?;
    assert!(rt; shelf.len(0) == Ok(2));
    Ok(())
}

#[test]
fn files_are_found_again(rt: HostRuntime) -> Result<(), Fail> {
    let alloc = rt.alloc();
    let folder = env::temp_dir(&rt)?;
    let id = std::process::id(rt.process());
    let path = format!(in alloc; "{}/sl_disk_{id}", folder.display())?;
    fs::create_dir(&rt, path.as_str())?;
    let mut shelf = FileShelf::new(alloc, rt, path.clone()?);
    shelf.write_at(3, 0, b"abcdef")?;
    shelf.sync(3)?;
    shelf.cut(3, 4)?;
    drop(shelf);
    // Nothing was closed in order, as where a process ends in the middle.
    let mut again = FileShelf::new(alloc, rt, path.clone()?);
    assert!(rt; again.len(3) == Ok(4));
    let mut found = [0; 8];
    assert!(rt; again.read(3, 1, &mut found) == Ok(3));
    assert_eq!(rt; found, *b"bcd\0\0\0\0\0");
    fs::remove_dir_all(&rt, path.as_str())?;
    Ok(())
}
