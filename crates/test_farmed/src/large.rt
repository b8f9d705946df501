//! Files as long as one may be.
use crate::calls::checked;
use crate::streams::FORK;
use bf_grammar::Limit;
use bf_io::Bytes;
use bf_output::Status;
use std::alloc::{AllocError, Global};
use std::test::Fail;

const HEAD: &[u8] = b"certificate 1
bad f570778fec974dd2b05ee862e235ff38a61118d3
good cf280beb8e59855da6095186b2544590849cd8dd
";

const STEP: &[u8] =
    b"reach 56b29d9c130e2ec4b506a48d4fe5a18d92d8d1e3 from cf280beb8e59855da6095186b2544590849cd8dd\n";

/// How many steps fit into 16 MiB behind the head and before the end.
const STEPS: u32 = 180399;

/// A text of so many steps, all the same, without its end.
fn long_text(alloc: Global) -> Result<Bytes, AllocError> {
    let mut text = Bytes::from_slice(alloc, HEAD)?;
    for _ in 0..STEPS {
        text.append(STEP)?;
    }
    Ok(text)
}

#[test]
fn sixteen_mebibytes_of_steps(rt: HostRuntime) -> Result<(), Fail> {
    let alloc = rt.alloc();
    let mut text = long_text(alloc)?;
    let cut = checked(alloc, FORK, text.try_clone()?)?;
    assert!(rt;
        cut.is(
            Status::CertRefused { line: 180403 },
            b"certificate fails at line 180403\n"
        )
    );
    text.append(b"end\n")?;
    let whole = checked(alloc, FORK, text.try_clone()?)?;
    assert!(rt;
        whole.is(
            Status::Done,
            b"certificate holds for f570778fec974dd2b05ee862e235ff38a61118d3\n"
        )
    );
    text.append(STEP)?;
    let longer = checked(alloc, FORK, text)?;
    assert!(rt; longer.is(Status::TooLarge { what: Limit::Log }, b"too large: log\n"));
    Ok(())
}
