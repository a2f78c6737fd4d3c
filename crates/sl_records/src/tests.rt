use super::*;
use crate::rows::{
    none_of_a_data_server, none_of_a_directory_server, none_of_the_coordinator, none_of_the_proxy,
    of_a_data_server, of_a_directory_server, of_the_coordinator, of_the_proxy,
};
use sl_cells::Item;
use std::alloc::Global;
use std::test::Fail;

/// The bytes with one byte too few, and with one too many.
fn around(alloc: Global, bytes: &[u8]) -> Result<(Vec<u8>, Vec<u8>), Fail> {
    let mut shorter = bytes.to_vec(alloc)?;
    shorter.truncate(bytes.len().saturating_sub(1));
    let mut longer = bytes.to_vec(alloc)?;
    longer.push(0)?;
    Ok((shorter, longer))
}

#[test]
fn records_of_the_proxy_are_written_as_they_were_read(rt: HostRuntime) -> Result<(), Fail> {
    for bytes in of_the_proxy() {
        let record = ProxyRecord::read(rt.alloc(), bytes)?;
        let mut out = Vec::new(rt.alloc());
        record.copy()?.write(&mut out)?;
        assert_eq!(rt; out.as_slice(), *bytes);
        let (shorter, longer) = around(rt.alloc(), bytes)?;
        assert!(rt;
            ProxyRecord::read(rt.alloc(), &shorter).is_err(),
            "{record:?}"
        );
        assert!(rt;
            ProxyRecord::read(rt.alloc(), &longer).is_err(),
            "{record:?}"
        );
    }
    for bytes in none_of_the_proxy() {
        let fault = ProxyRecord::read(rt.alloc(), bytes).err();
        assert_eq!(rt; fault, Some(RecordFault::BadRecord));
    }
    Ok(())
}

#[test]
fn records_of_the_coordinator_are_written_as_they_were_read(rt: HostRuntime) -> Result<(), Fail> {
    for bytes in of_the_coordinator() {
        let record = LogEntry::read(rt.alloc(), bytes)?;
        let mut out = Vec::new(rt.alloc());
        record.copy()?.write(&mut out)?;
        assert_eq!(rt; out.as_slice(), *bytes);
        let (shorter, longer) = around(rt.alloc(), bytes)?;
        assert!(rt; LogEntry::read(rt.alloc(), &shorter).is_err(), "{record:?}");
        assert!(rt; LogEntry::read(rt.alloc(), &longer).is_err(), "{record:?}");
    }
    for bytes in none_of_the_coordinator() {
        let fault = LogEntry::read(rt.alloc(), bytes).err();
        assert_eq!(rt; fault, Some(RecordFault::BadRecord));
    }
    Ok(())
}

#[test]
fn records_of_a_directory_server_are_written_as_they_were_read(
    rt: HostRuntime,
) -> Result<(), Fail> {
    for bytes in of_a_directory_server() {
        let record = DirRecord::read(rt.alloc(), bytes)?;
        let mut out = Vec::new(rt.alloc());
        record.copy()?.write(&mut out)?;
        assert_eq!(rt; out.as_slice(), *bytes);
        let (shorter, longer) = around(rt.alloc(), bytes)?;
        assert!(rt;
            DirRecord::read(rt.alloc(), &shorter).is_err(),
            "{record:?}"
        );
        assert!(rt; DirRecord::read(rt.alloc(), &longer).is_err(), "{record:?}");
    }
    for bytes in none_of_a_directory_server() {
        let fault = DirRecord::read(rt.alloc(), bytes).err();
        assert_eq!(rt; fault, Some(RecordFault::BadRecord));
    }
    Ok(())
}

#[test]
fn records_of_a_data_server_are_written_as_they_were_read(rt: HostRuntime) -> Result<(), Fail> {
    for bytes in of_a_data_server() {
        let record = DataRecord::read(rt.alloc(), bytes)?;
        let mut out = Vec::new(rt.alloc());
        record.copy()?.write(&mut out)?;
        assert_eq!(rt; out.as_slice(), *bytes);
        let (shorter, longer) = around(rt.alloc(), bytes)?;
        assert!(rt;
            DataRecord::read(rt.alloc(), &shorter).is_err(),
            "{record:?}"
        );
        assert!(rt;
            DataRecord::read(rt.alloc(), &longer).is_err(),
            "{record:?}"
        );
    }
    for bytes in none_of_a_data_server() {
        let fault = DataRecord::read(rt.alloc(), bytes).err();
        assert_eq!(rt; fault, Some(RecordFault::BadRecord));
    }
    Ok(())
}
