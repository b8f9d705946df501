//! A history is imported, and its commits are named.
use crate::line::{history, stream};
use bf_import::History;
use bf_names::{NameFault, resolve};
use bf_oid::{Oid, oid_from_hex};
use std::alloc::Global;
use std::test::Fail;

/// The object name of the commit that a name means.
fn named(alloc: Global, history: &History, name: &[u8]) -> Result<Oid, NameFault> {
    let place = resolve(alloc, history, name)?;
    Ok(history.names()[place as usize])
}

fn digits() -> &'static [u8] {
    b"2a83eb598262042db81ddad6b0c3b6c0d200c521"
}

#[test]
fn a_name_leads_to_its_commit(rt: HostRuntime) -> Result<(), Fail> {
    let alloc = rt.alloc();
    let history = history(alloc, stream())?;
    let oid = named(alloc, &history, b"main~1")?;
    assert_eq!(rt; Some(oid), oid_from_hex(digits()));
    assert_eq!(rt; resolve(alloc, &history, digits()), Ok(2));
    assert_eq!(rt;
        resolve(alloc, &history, b"main~9"),
        Err(NameFault::NoParent)
    );
    Ok(())
}
