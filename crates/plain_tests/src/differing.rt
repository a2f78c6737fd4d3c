//! What a volume shows of itself, and where two volumes differ.
use crate::volumes::written;
use sl_plain::{Volume, attributes};
use std::alloc::Global;
use std::test::Fail;

// The same volume, once its file is flushed.
fn flushed(volume: &Volume) -> Result<Volume, Fail> {
    let mut flushed = volume.copy()?;
    flushed.flush(2)?;
    Ok(flushed)
}

// The first object and the first byte in which a volume differs once its file is flushed, and how many names do.
fn flush_differs(alloc: Global) -> Result<(Option<u64>, usize, Option<(u64, u64)>), Fail> {
    let volume = written(alloc)?;
    let flushed = flushed(&volume)?;
    let differences = volume.differences(alloc, &flushed)?;
    let object = differences.objects.first().copied();
    let byte = differences.bytes.first().copied();
    Ok((object, differences.names.len(), byte))
}

// Whether a volume is the same as its copy, and as itself once its file is flushed.
fn are_same(alloc: Global) -> Result<(bool, bool), Fail> {
    let volume = written(alloc)?;
    let copy = volume.copy()?;
    let flushed = flushed(&volume)?;
    Ok((volume.is_same(&copy), volume.is_same(&flushed)))
}

#[test]
fn a_flush_changes_the_file_and_its_bytes(rt: HostRuntime) -> Result<(), Fail> {
    let differences = flush_differs(rt.alloc())?;
    assert_eq!(rt; differences, (Some(2), 0, Some((2, 3))));
    Ok(())
}

#[test]
fn a_copy_is_the_same_and_a_flushed_volume_is_not(rt: HostRuntime) -> Result<(), Fail> {
    assert_eq!(rt; are_same(rt.alloc())?, (true, false));
    Ok(())
}

#[test]
fn a_file_has_one_name(rt: HostRuntime) -> Result<(), Fail> {
    let volume = written(rt.alloc())?;
    assert_eq!(rt; volume.places_of(rt.alloc(), 2)?.len(), 1);
    assert_eq!(rt; volume.names_behind(rt.alloc(), 1, 0)?.as_slice().len(), 1);
    Ok(())
}

#[test]
fn a_volume_shows_its_unstable_writes_and_texts(rt: HostRuntime) -> Result<(), Fail> {
    let volume = written(rt.alloc())?;
    assert_eq!(rt; volume.unstable().len(), 1);
    assert_eq!(rt; volume.text(rt.alloc(), 2)?.as_slice(), b"".as_slice());
    Ok(())
}

// The fileid that the attributes of a new volume's root have.
fn root_fileid(alloc: Global) -> Option<u64> {
    let volume = Volume::new(alloc, 7).ok()?;
    let node = volume.node(1)?;
    Some(attributes(node).fileid)
}

#[test]
fn a_node_has_the_attributes_of_its_object(rt: HostRuntime) {
    assert_eq!(rt; root_fileid(rt.alloc()), Some(1));
}
