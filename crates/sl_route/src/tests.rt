use super::*;
use std::test::Fail;

/// Two directory servers, three small-file servers and four storage nodes.
fn two_three_four() -> Result<Table, Fail> {
    Ok(Table::even(2, 3, 4).ok_or("no table")?)
}

/// The bytes of a table in which one server of each class has all sites, but for the last site of storage nodes.
fn bytes_with_last_node(last: u8) -> [u8; 144] {
    let mut bytes = [48; 144];
    bytes[..64].fill(16);
    bytes[64..80].fill(35);
    bytes[143] = last;
    bytes
}

#[test]
fn an_even_table_gives_sites_in_turn(rt: HostRuntime) -> Result<(), Fail> {
    let table = two_three_four()?;
    assert_eq!(rt; table.server(Class::Dir, 0), 16);
    assert_eq!(rt; table.server(Class::Dir, 63), 17);
    assert_eq!(rt; table.server(Class::Small, 5), 34);
    assert_eq!(rt; table.server(Class::Small, 15), 32);
    assert_eq!(rt; table.server(Class::Node, 3), 51);
    assert_eq!(rt; table.server(Class::Node, 62), 50);
    Ok(())
}

#[test]
fn counts_of_servers_have_bounds(rt: HostRuntime) {
    assert!(rt; Table::even(1, 1, 1).is_some());
    assert!(rt; Table::even(8, 4, 8).is_some());
    assert!(rt; Table::even(0, 4, 8).is_none());
    assert!(rt; Table::even(9, 4, 8).is_none());
    assert!(rt; Table::even(8, 5, 8).is_none());
    assert!(rt; Table::even(8, 4, 0).is_none());
    assert!(rt; Table::even(8, 4, 9).is_none());
}

#[test]
fn a_table_is_read_from_its_bytes(rt: HostRuntime) -> Result<(), Fail> {
    let bytes = bytes_with_last_node(55);
    let table = Table::read(&bytes).ok_or("no table")?;
    assert_eq!(rt; table.server(Class::Dir, 63), 16);
    assert_eq!(rt; table.server(Class::Small, 0), 35);
    assert_eq!(rt; table.server(Class::Node, 62), 48);
    assert_eq!(rt; table.server(Class::Node, 63), 55);
    Ok(())
}

#[test]
fn other_bytes_are_no_table(rt: HostRuntime) {
    let bytes = bytes_with_last_node(55);
    let (all_but_one, _) = bytes.split_at(143);
    assert!(rt; Table::read(all_but_one).is_none(), "a byte is missing");
    assert!(rt;
        Table::read(&bytes_with_last_node(47)).is_none(),
        "below storage nodes"
    );
    assert!(rt;
        Table::read(&bytes_with_last_node(56)).is_none(),
        "above storage nodes"
    );
}

#[test]
fn bytes_have_these_servers(rt: HostRuntime) -> Result<(), Fail> {
    let table = two_three_four()?;
    assert_eq!(rt; table.unit_place(7, 0), 33, "site 7 of small-file servers");
    assert_eq!(rt; table.unit_place(23, 65_535), 33, "site 7 again");
    assert_eq!(rt;
        table.unit_place(7, 65_536),
        51,
        "unit 8, site 15 of storage nodes"
    );
    assert_eq!(rt; table.unit_place(7, 73_728), 48, "unit 9, site 16");
    assert_eq!(rt; table.unit_place(u64::MAX, u64::MAX), 50, "site 62");
    Ok(())
}

#[test]
fn a_span_has_these_servers(rt: HostRuntime) -> Result<(), Fail> {
    let table = two_three_four()?;
    let whole = table.spans(7, 0, 300 * 8192);
    assert_eq!(rt; whole, ActorSet(1 << 33 | 0b1111 << 48), "300 units");
    assert_eq!(rt;
        table.spans(7, 65_546, 65_556),
        ActorSet(1 << 51),
        "in one unit"
    );
    assert_eq!(rt;
        table.spans(7, 65_536, 73_728),
        ActorSet(1 << 51),
        "one unit"
    );
    assert_eq!(rt;
        table.spans(7, 65_536, 73_729),
        ActorSet(1 << 51 | 1 << 48),
        "and a byte"
    );
    assert_eq!(rt;
        table.spans(7, 65_535, 65_536),
        ActorSet(1 << 33),
        "below 65536"
    );
    assert_eq!(rt;
        table.spans(7, 65_535, 65_537),
        ActorSet(1 << 33 | 1 << 51),
        "across 65536"
    );
    assert_eq!(rt; table.spans(7, 100, 100), ActorSet(0), "no byte");
    assert_eq!(rt; table.spans(7, 70_000, 65_540), ActorSet(0), "no byte");
    Ok(())
}

/// Site 63 alone has server 55, and unit 63 of file 0 alone of the first 64 and more comes to it.
#[test]
fn a_long_span_reaches_each_site(rt: HostRuntime) -> Result<(), Fail> {
    let table = Table::read(&bytes_with_last_node(55)).ok_or("no table")?;
    let both = ActorSet(1 << 48 | 1 << 55);
    assert_eq!(rt;
        table.spans(0, 64 * 8192, 127 * 8192),
        ActorSet(1 << 48),
        "all but unit 127"
    );
    assert_eq!(rt; table.spans(0, 64 * 8192, 127 * 8192 + 1), both, "all");
    assert_eq!(rt;
        table.spans(0, 65_536, u64::MAX),
        both,
        "to the end of the longest file"
    );
    Ok(())
}
