use crate::has_args;
use crate::rows::rows;
use std::test::Fail;

#[test]
fn arguments_are_found_whatever_follows_them(rt: HostRuntime) -> Result<(), Fail> {
    for row in rows() {
        assert!(rt; has_args(row.procedure, row.canonical), "{}", row.procedure);
        let mut bytes = row.padded.to_vec(rt.alloc())?;
        bytes.extend_from_slice(b"more")?;
        assert!(rt; has_args(row.procedure, &bytes), "{}", row.procedure);
    }
    Ok(())
}

#[test]
fn arguments_that_end_early_are_not_found(rt: HostRuntime) -> Result<(), Fail> {
    for row in rows() {
        for length in 0..row.canonical.len() {
            assert!(rt;
                !has_args(row.procedure, &row.canonical[..length]),
                "{}",
                row.procedure
            );
        }
    }
    Ok(())
}

#[test]
fn a_procedure_of_no_number_has_no_arguments(rt: HostRuntime) -> Result<(), Fail> {
    assert!(rt; !has_args(22, b""));
    Ok(())
}
