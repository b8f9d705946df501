//! Decimal numbers as text.
ghost use Rattle.std.specs.Prelude.{◌≡◌, ◌++◌, OnOk, OnErr};
ghost use Rattle.std.specs.Fmt as text;
ghost use Rattle.bf_io.specs.Decimal.{decimal_value};

use crate::Bytes;
use itoa::Buffer;
use std::alloc::AllocError;

// The most digits that a number below 2^64 is read from.
const MOST_DIGITS: usize = 20;

/// The value of 1 to 20 decimal digits that is below 2^64, and `None` for any other text. Leading zeros
/// are allowed; a sign is not.
#[tactic(auto, unfolding(crate::specs::Decimal::decimal_value))]
pub fn decimal(bytes: &[u8]) -> Option<u64>
    ensures { result ≡ decimal_value bytes.now }
{
    if bytes.is_empty() || bytes.len() > MOST_DIGITS {
        return None;
    }
    let mut value: u64 = 0;
    for digit in bytes {
        if !digit.is_ascii_digit() {
            return None;
        }
        value = value
            .checked_mul(10)?
            .checked_add(u64::from(*digit - b'0'))?;
    }
    Some(value)
}

/// Adds the decimal digits of a number, without leading zeros. After an error the bytes are as before.
pub fn put_decimal(out: &mut Bytes, n: u64) -> Result<(), AllocError>
    ensures ok { OnOk result (out.new ≡ out.old ++ text.decimal n) }
    ensures err { OnErr result (out.new ≡ out.old) }
{
    out.append(Buffer::new().format(n).as_bytes())
}
