//! The 40 hexadecimal digits that write a name.
ghost use Rattle.std.specs.Prelude.{◌≡◌, ◌↔◌, length, IsSome};
ghost use Rattle.std.specs.List.{AllPass};
ghost use Rattle.hex.specs.Hex.{encode_lower, is_hex_digit};
ghost use Rattle.bf_oid.specs.Object.{oid_of_hex};

use crate::Oid;

/// The name that 40 hexadecimal digits of either case write, and `None` for any other text.
pub fn oid_from_hex(text: &[u8]) -> Option<Oid>
    ensures value { result ≡ oid_of_hex text.now }
    ensures found { IsSome result ↔ ((length text.now ≡ 40) × AllPass is_hex_digit text.now) }
{
    if text.len() != 40 {
        return None;
    }
    let mut bytes = [0; 20];
    hex::decode_to_slice(text, &mut bytes).ok()?;
    Some(Oid(bytes))
}

/// Writes a name as 40 hexadecimal digits in lower case.
pub fn oid_hex(oid: Oid, out: &mut [u8; 40])
    ensures { out.new ≡ encode_lower oid.0 }
{
    hex::encode_to_slice(oid.0.as_slice(), out).unwrap();
}
