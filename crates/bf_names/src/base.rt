//! The commit that the base of a name means.
ghost use Rattle.std.specs.Prelude.{◌≡◌, ◌<◌, ◌++◌, codes, length, All, IfOk, IfSome};
ghost use Rattle.bf_history.specs.Meanings.{ref_in};
ghost use Rattle.bf_names.specs.Order.{IsOrderOf};
ghost use Rattle.bf_names.specs.Names.{Means, first_set, meanings, place_of_base, spelled_out};

use crate::NameFault;
use crate::digits::place_by_digits;
use crate::order::NameOrder;
use bf_import::History;
use bf_io::Bytes;
use bf_oid::oid_from_hex;
use bf_tables::Refs;
use std::alloc::{AllocError, Global};

/// The place of the commit that a base means.
pub(crate) fn place_of_base(
    alloc: Global,
    history: &History,
    order: Option<&NameOrder>,
    base: &[u8],
) -> Result<u32, NameFault>
    requires { IfSome order (λ order. IsOrderOf history.now.names order.now) }
    ensures value { Means result (place_of_base history.now base.now) }
    ensures within { IfOk result (λ place. place < length history.now.parents) }
{
    let base = spelled_out(base);
    if let Some(name) = oid_from_hex(base) {
        return history.place_named(name).ok_or(NameFault::Unknown);
    }
    match place_of_ref(alloc, history.refs(), base)? {
        Some(place) => Ok(place),
        None => place_by_digits(alloc, history, order, base),
    }
}

fn spelled_out(base: &[u8]) -> &[u8]
    ensures { result.now ≡ spelled_out base.now }
{
    if base == b"@".as_slice() {
        b"HEAD"
    } else {
        base
    }
}

// Where the first ref leads that is set, of those that a base may mean.
fn place_of_ref(alloc: Global, refs: &Refs, base: &[u8]) -> Result<Option<u32>, AllocError>
    ensures { IfOk result (λ place. place ≡ first_set refs.now (meanings base.now)) }
{
    if let Some(place) = place_below(alloc, refs, b"", base)? {
        return Ok(Some(place));
    }
    if let Some(place) = place_below(alloc, refs, b"refs/", base)? {
        return Ok(Some(place));
    }
    if let Some(place) = place_below(alloc, refs, b"refs/tags/", base)? {
        return Ok(Some(place));
    }
    if let Some(place) = place_below(alloc, refs, b"refs/heads/", base)? {
        return Ok(Some(place));
    }
    if let Some(place) = place_below(alloc, refs, b"refs/remotes/", base)? {
        return Ok(Some(place));
    }
    place_of_head(alloc, refs, base)
}

// The place of the ref with a name below a prefix.
fn place_below(
    alloc: Global,
    refs: &Refs,
    prefix: &[u8],
    name: &[u8],
) -> Result<Option<u32>, AllocError>
    ensures { IfOk result (λ place. place ≡ ref_in refs.now (prefix.now ++ name.now)) }
{
    let mut full = Bytes::from_slice(alloc, prefix)?;
    full.append(name)?;
    Ok(refs.get(&full))
}

// The place of the head of a remote.
fn place_of_head(alloc: Global, refs: &Refs, remote: &[u8]) -> Result<Option<u32>, AllocError>
    ensures { IfOk result (λ place.
        place ≡ ref_in refs.now (codes "refs/remotes/" ++ remote.now ++ codes "/HEAD")) }
{
    let mut full = Bytes::from_slice(alloc, b"refs/remotes/")?;
    full.append(remote)?;
    full.append(b"/HEAD")?;
    Ok(refs.get(&full))
}
