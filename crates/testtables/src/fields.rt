// A row's fields, and the bytes that they write.
ghost use Rattle.std.specs.Prelude.{◌≡◌, ◌<◌, ◌≤◌, length, IfSome, OnOk, MatchOption};
ghost use Rattle.arrayvec.specs.ArrayVec.{array_vec_len};
ghost use Rattle.testtables.specs.Fields.{hex_value, hex_byte, first_byte, decoded, decoded_within};

use crate::row::RowError;
use arrayvec::ArrayVec;

// The most bytes that a field writes, that the files of a row have together, and that an answer has.
pub const MOST_BYTES: usize = 4096;

// The section of the row that a text begins with: what stands before the last dot of its first field.
pub fn section(text: &[u8]) -> &[u8]
    ensures { length result.now ≤ length text.now }
{
    let tab = text.iter().position(|b| *b == b'\t').unwrap_or(text.len());
    let dot = text[..tab].iter().rposition(|b| *b == b'.').unwrap_or(0);
    &text[..dot]
}

// The value of a hexadecimal digit.
#[tactic(auto, unfolding(crate::specs::Fields::hex_value))]
fn hex_value(digit: u8) -> Option<u8>
    ensures value { result ≡ hex_value digit }
    ensures one_digit { IfSome result (λ v. v < 16) }
{
    match digit {
        b'0'..=b'9' => Some(digit - b'0'),
        b'a'..=b'f' => Some(digit - b'a' + 10),
        _ => None,
    }
}

// The byte that two hexadecimal digits write.
#[tactic(auto, unfolding(crate::specs::Fields::hex_byte))]
fn hex_byte(high: u8, low: u8) -> Option<u8>
    ensures { result ≡ hex_byte high low }
{
    Some(hex_value(high)? * 16 + hex_value(low)?)
}

// The byte that the first bytes of a field write, an escape `%HH` or one by itself, and what stands behind them.
#[tactic(auto, unfolding(crate::specs::Fields::first_byte))]
fn first_byte(field: &[u8]) -> Option<(u8, &[u8])>
    ensures { MatchOption result (first_byte field.now ≡ None) (λ x. first_byte field.now ≡ Some (x.0, x.1.now)) }
{
    match field {
        [b'%', high, low, rest @ ..] => Some((hex_byte(*high, *low)?, rest)),
        [] | [b'%', ..] => None,
        [byte, rest @ ..] => Some((*byte, rest)),
    }
}

// Puts the bytes that a field writes in place of others, if there is room for them.
#[tactic(auto, using(crate::proofs::FieldLaws::stopped, crate::proofs::FieldLaws::one_more, crate::proofs::FieldLaws::shorter, crate::proofs::FieldLaws::within_none, crate::proofs::FieldLaws::full), unfolding(crate::specs::Fields::decoded))]
pub fn decode<const ROOM: usize>(
    field: &[u8],
    bytes: &mut ArrayVec<u8, ROOM>,
) -> Result<(), RowError>
    ensures ok { OnOk result (decoded field.now ≡ Some bytes.new.items) }
    ensures fits { OnOk result (array_vec_len bytes.new ≤ ROOM) }
    ensures malformed { result ≡ Err RowError.Malformed → decoded_within ROOM field.now ≡ None }
{
    bytes.clear();
    let mut rest = field;
    while !rest.is_empty() {
        let (byte, behind) = first_byte(rest).ok_or(RowError::Malformed)?;
        bytes.try_push(byte)?;
        rest = behind;
    }
    Ok(())
}
