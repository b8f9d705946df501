//! A certificate is checked, without a test.
ghost use Rattle.std.specs.Prelude.{◌≤◌, length};

use crate::line::{history, stream};
use bf_cert::{CertFault, read_cert};
use bf_import::History;
use bf_oid::{Oid, oid_from_hex};
use std::alloc::Global;
use std::test::Fail;

const CERTIFICATE: &[u8] = b"certificate 1
bad 771edca49728d8c78d5b371976ec2debc7c92b35
good 2a83eb598262042db81ddad6b0c3b6c0d200c521
end
";

/// The object name of the commit that a text is a certificate of.
fn certified(alloc: Global, history: &History, text: &[u8]) -> Result<Oid, CertFault>
    requires { length text.now ≤ 16777216 }
{
    let cert = read_cert(alloc, history, text)?;
    Ok(history.names()[cert.bad as usize])
}

fn certificate() -> &'static [u8] {
    CERTIFICATE
}

#[test]
fn a_certificate_names_its_commit(rt: HostRuntime) -> Result<(), Fail> {
    let alloc = rt.alloc();
    let history = history(alloc, stream())?;
    let text = certificate();
    assert!(rt; text.len() <= 16_777_216);
    let named = certified(alloc, &history, text);
    assert!(rt; named.ok() == oid_from_hex(b"771edca49728d8c78d5b371976ec2debc7c92b35"));
    let cut = certified(alloc, &history, &text[..text.len() / 2]);
    assert_eq!(rt; cut, Err(CertFault::Line { line: 2 }));
    Ok(())
}
