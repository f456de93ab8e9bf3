//! Tests of the texts of the sample.

use super::*;
use std::test::Fail;

#[test]
fn a_sample_of_no_units_is_the_script_and_a_header(rt: HostRuntime) -> Result<(), Fail> {
    let (script, units) = make(rt.alloc(), 0, 0)?;
    assert_eq!(rt; script.len(), 1_219);
    assert_eq!(rt; units.as_slice(), b"key,player,x,y,health\n".as_slice());
    Ok(())
}

#[test]
fn a_sample_has_at_most_65536_units(rt: HostRuntime) {
    assert!(rt; matches!(make(rt.alloc(), 65_537, 0), Err(MakeFault::TooMany)));
}

#[test]
fn the_units_of_a_small_sample(rt: HostRuntime) -> Result<(), Fail> {
    const FIRST: &[u8] =
        b"key,player,x,y,health\n1,2,2486,3798,78\n2,1,3941,3743,59\n3,2,3827,3238,51\n";
    let (_script, units) = make(rt.alloc(), 3, 0)?;
    assert_eq!(rt; units.as_slice(), FIRST);
    const LAST: &[u8] = b"key,player,x,y,health\n1,2,1924,3755,82\n2,1,1862,686,79\n";
    let (_script, units) = make(rt.alloc(), 2, u64::MAX)?;
    assert_eq!(rt; units.as_slice(), LAST);
    Ok(())
}
