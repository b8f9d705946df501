//! The sum of an answer: the SHA-256 (FIPS 180-4) of all lines behind it.
ghost use Rattle.std.specs.Prelude.{◌≡◌, IfOk};
ghost use Rattle.bf_claims.specs.Sums as sums;

use bf_io::Bytes;
use sha2::{Digest, Sha256};
use std::alloc::{AllocError, Global};

/// Whether a line is that of the sum of what stands below it.
pub(crate) fn is_sum(alloc: Global, line: &[u8], below: &[u8]) -> Result<bool, AllocError>
    ensures { IfOk result (λ is. is ≡ sums.is_sum line.now below.now) }
{
    let due = sum_line(alloc, below)?;
    Ok(line == due.as_slice())
}

/// The line of the sum of a text.
fn sum_line(alloc: Global, below: &[u8]) -> Result<Bytes, AllocError>
    ensures { IfOk result (λ line. line ≡ sums.sum_line below.now) }
{
    let sum = Sha256::digest(below);
    let mut digits = [0u8; 64];
    hex::encode_to_slice(sum.as_slice(), &mut digits).unwrap();
    let mut line = Bytes::from_slice(alloc, b"sum ")?;
    line.append(&digits)?;
    line.append(b"\n")?;
    Ok(line)
}
