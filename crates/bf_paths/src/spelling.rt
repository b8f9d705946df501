//! Paths as they are written, plain or between quotes.
ghost use Rattle.std.specs.Prelude.{◌≡◌, ◌+◌, ◌<◌, ◌≤◌, ◌^◌, [], ◌∷◌, ◌++◌, length, IfOk, OnOk, OnErr, IsErrOf, Some, None};
ghost use Rattle.bf_paths.specs.Quoting.{letter_value, letter_of, is_octal, octal_piece, escape_piece, piece_of, unquoted, path_value, spelled, quoted, PieceWithin};

use crate::parts::{Path, PathFault, split_path};
use bf_io::Bytes;
use std::alloc::{AllocError, Global};

/// What stands in front between quotes.
#[derive(Clone, Copy, Debug, PartialEq, Eq)]
pub(crate) enum Piece {
    /// A byte, which takes so many bytes of the text.
    Byte(u8, usize),
    /// The quote at the end of the text.
    Closed,
    /// Nothing that may stand there.
    Bad,
}

/// The byte that a letter behind a backslash stands for.
#[tactic(auto, unfolding(crate::specs::Quoting::letter_value))]
fn letter_value(letter: u8) -> Option<u8>
    ensures { result ≡ letter_value letter }
{
    match letter {
        b'a' => Some(7),
        b'b' => Some(8),
        b't' => Some(9),
        b'n' => Some(10),
        b'v' => Some(11),
        b'f' => Some(12),
        b'r' => Some(13),
        b'"' => Some(b'"'),
        b'\\' => Some(b'\\'),
        _ => None,
    }
}

/// The letter that stands for a byte behind a backslash.
#[tactic(auto, unfolding(crate::specs::Quoting::letter_of))]
fn letter_of(byte: u8) -> Option<u8>
    ensures { result ≡ letter_of byte }
{
    match byte {
        7 => Some(b'a'),
        8 => Some(b'b'),
        9 => Some(b't'),
        10 => Some(b'n'),
        11 => Some(b'v'),
        12 => Some(b'f'),
        13 => Some(b'r'),
        b'"' => Some(b'"'),
        b'\\' => Some(b'\\'),
        _ => None,
    }
}

fn is_octal(digit: u8) -> bool
    ensures { result ≡ is_octal digit }
{
    b'0' <= digit && digit <= b'7'
}

/// What a backslash and the three octal digits in front spell.
#[tactic(auto, unfolding(crate::specs::Quoting::octal_piece))]
fn octal_piece(text: &[u8]) -> Piece
    ensures value { result ≡ octal_piece text.now }
    ensures within { PieceWithin (length text.now + 1) result }
{
    let [a, b, c, ..] = text else {
        return Piece::Bad;
    };
    if !is_octal(*a) || !is_octal(*b) || !is_octal(*c) {
        return Piece::Bad;
    }
    let value = u32::from(*a - b'0') * 64 + u32::from(*b - b'0') * 8 + u32::from(*c - b'0');
    if value <= 255 {
        Piece::Byte(value as u8, 4)
    } else {
        Piece::Bad
    }
}

/// What a backslash and the text behind it spell.
#[tactic(auto, unfolding(crate::specs::Quoting::escape_piece))]
fn escape_piece(text: &[u8]) -> Piece
    ensures value { result ≡ escape_piece text.now }
    ensures within { PieceWithin (length text.now + 1) result }
{
    let [letter, ..] = text else {
        return Piece::Bad;
    };
    match letter_value(*letter) {
        Some(value) => Piece::Byte(value, 2),
        None => octal_piece(text),
    }
}

/// What stands in front between quotes.
#[tactic(auto, unfolding(crate::specs::Quoting::piece_of))]
fn piece_of(text: &[u8]) -> Piece
    ensures value { result ≡ piece_of text.now }
    ensures within { PieceWithin (length text.now) result }
{
    match text {
        [] => Piece::Bad,
        [b'"'] => Piece::Closed,
        [b'"', ..] => Piece::Bad,
        [b'\\', rest @ ..] => escape_piece(rest),
        [b'\n', ..] => Piece::Bad,
        [byte, ..] => Piece::Byte(*byte, 1),
    }
}

/// The bytes that a text spells behind its first quote.
fn unquote(alloc: Global, text: &[u8]) -> Result<Bytes, PathFault>
    ensures ok { IfOk result (λ bytes. unquoted text.now 0 ≡ Some bytes) }
    ensures bad { IsErrOf result PathFault.Bad → unquoted text.now 0 ≡ None }
{
    let mut bytes = Bytes::new(alloc);
    let mut at = 0;
    while at < text.len() {
        match piece_of(&text[at..]) {
            Piece::Byte(value, count) => {
                bytes.push(value)?;
                at += count;
            }
            Piece::Closed => return Ok(bytes),
            Piece::Bad => return Err(PathFault::Bad),
        }
    }
    Err(PathFault::Bad)
}

/// The path that a text writes, plain or between quotes. `Bad` comes exactly where the text is no path.
#[tactic(auto, unfolding(crate::specs::Quoting::path_value))]
pub fn read_path(alloc: Global, text: &[u8]) -> Result<Path, PathFault>
    ensures ok { IfOk result (λ path. path_value text.now ≡ Some path) }
    ensures bad { IsErrOf result PathFault.Bad → path_value text.now ≡ None }
{
    match text {
        [b'"', rest @ ..] => {
            let bytes = unquote(alloc, rest)?;
            split_path(alloc, bytes.as_slice())
        }
        _ => split_path(alloc, text),
    }
}

/// Adds the spelling of a byte between quotes.
#[tactic(auto, unfolding(crate::specs::Quoting::spelled))]
fn push_spelled(text: &mut Bytes, byte: u8) -> Result<(), AllocError>
    ensures { OnOk result (text.new ≡ text.old ++ spelled byte) }
{
    if let Some(letter) = letter_of(byte) {
        return text.append(&[b'\\', letter]);
    }
    if byte < 32 || byte >= 127 {
        let digits = [b'0' + byte / 64, b'0' + byte / 8 % 8, b'0' + byte % 8];
        return text.append(&[b'\\', digits[0], digits[1], digits[2]]);
    }
    text.push(byte)
}

/// The quoted text of a path: always with quotes, and with bytes below 32 and from 127 on as letters or
/// in octal.
#[tactic(auto, unfolding(crate::specs::Quoting::quoted))]
pub fn quote(path: &Path) -> Result<Bytes, AllocError>
    ensures { IfOk result (λ text. text ≡ quoted path.now) }
{
    let bytes = path.to_bytes()?;
    let mut text = Bytes::new(path.allocator());
    text.push(b'"')?;
    for byte in bytes.as_slice() {
        push_spelled(&mut text, *byte)?;
    }
    text.push(b'"')?;
    Ok(text)
}

/// The quoted text of a path writes this path and no other.
pub fn round_trip(path: &Path)
    ensures { path_value (quoted path.now) ≡ Some path.now }
{
    let _components = path.components();
}
