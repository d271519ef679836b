use show::names_of;
use std::test::Fail;
use text::{Badge, Word};

#[test]
fn of_a_name(rt: HostRuntime) -> Result<(), Fail> {
    assert_eq!(rt; names_of::<Word>(rt.alloc(), b"a")?.len(), 128);
    assert_eq!(rt; names_of::<Badge>(rt.alloc(), b"0")?.len(), 128);
    Ok(())
}

#[test]
fn of_no_name(rt: HostRuntime) -> Result<(), Fail> {
    assert_eq!(rt; names_of::<Word>(rt.alloc(), b"?")?.len(), 0);
    assert_eq!(rt; names_of::<Badge>(rt.alloc(), b"a")?.len(), 0);
    Ok(())
}
