//! Numbers and strings as pieces of a JSON text.
ghost use Rattle.std.specs.Prelude.{◌≡◌, ◌++◌, ◌<◌, codes, decimal};
ghost use Rattle.std.specs.Option.{option_copied};
ghost use Rattle.std.specs.Char.{digit_char};
ghost use Rattle.json.specs.Print.{escape, escape_byte, escape_letter};
ghost use Rattle.serde_json.specs.Data.{string};
ghost use Rattle.serde_json.specs.Written.{compact_text};
ghost use Rattle.bs_json.specs.inner.BoardText.{text_data};
ghost use Rattle.bs_json.specs.inner.Compact.{are_plain};
ghost use Rattle.bs_json.specs.Text.{put};

use crate::compact::is_plain;
use crate::text_buffer::TextBuffer;
use itoa::Buffer;

/// Appends the digits of a number.
#[tactic(auto, using(crate::proofs::ShownCells::one_digit, crate::proofs::ShownCells::two_digits))]
#[inline(always)]
pub(crate) fn push_number(number: u64, text: &mut TextBuffer)
    ensures { text.new ≡ put text.old (decimal number) }
{
    if number < 10 {
        text.push(&[b'0' + number as u8]);
    } else if number < 100 {
        let tens = b'0' + (number / 10) as u8;
        let ones = b'0' + (number % 10) as u8;
        text.push(&[tens, ones]);
    } else {
        text.push(Buffer::new().format(number).as_bytes());
    }
}

/// Appends a number of one byte.
#[inline(always)]
pub(crate) fn push_small(number: u8, text: &mut TextBuffer)
    ensures { text.new ≡ put text.old (decimal number) }
{
    push_number(u64::from(number), text);
}

/// Appends the number of a turn.
#[inline(always)]
pub(crate) fn push_turn(turn: u16, text: &mut TextBuffer)
    ensures { text.new ≡ put text.old (decimal turn) }
{
    push_number(u64::from(turn), text);
}

/// The letter of a byte's short escape, or 0 if it has none.
fn escape_letter(byte: u8) -> u8
    ensures { result ≡ escape_letter byte }
{
    match byte {
        b'"' | b'\\' => byte,
        8 => b'b',
        12 => b'f',
        b'\n' => b'n',
        b'\r' => b'r',
        b'\t' => b't',
        _ => 0,
    }
}

fn hex_digit(digit: u8) -> u8
    requires { digit < 16 }
    ensures { result ≡ digit_char digit }
{
    if digit < 10 {
        b'0' + digit
    } else {
        b'a' - 10 + digit
    }
}

/// Appends the text of a byte in a string.
#[tactic(auto, unfolding(json::specs::Print::escape_byte))]
fn push_escape(byte: u8, text: &mut TextBuffer)
    ensures { text.new ≡ put text.old (escape_byte byte) }
{
    let letter = escape_letter(byte);
    if letter > 0 {
        text.push(&[b'\\', letter]);
    } else if byte < 32 {
        let high = hex_digit(byte / 16);
        let low = hex_digit(byte % 16);
        text.push(&[b'\\', b'u', b'0', b'0', high, low]);
    } else {
        text.push(&[byte]);
    }
}

/// Whether all bytes of a string stand for themselves in JSON.
#[inline(always)]
pub(crate) fn are_plain(text: &[u8]) -> bool
    ensures { result ≡ are_plain text.now }
{
    text.iter().all(|byte| is_plain(*byte))
}

/// Appends the bytes of a string, each with its escape.
#[tactic(auto, using(crate::proofs::Puts::put_none))]
fn push_escapes(bytes: &[u8], text: &mut TextBuffer)
    ensures { text.new ≡ put text.old (escape bytes.now) }
{
    for byte in bytes {
        push_escape(*byte, text);
    }
}

/// Appends the bytes of a string. Nearly all strings have none to escape.
#[tactic(auto, using(crate::proofs::CompactLines::escape_plain))]
#[inline(always)]
pub(crate) fn push_bytes(bytes: &[u8], text: &mut TextBuffer)
    ensures { text.new ≡ put text.old (escape bytes.now) }
{
    if are_plain(bytes) {
        text.push(bytes);
    } else {
        push_escapes(bytes, text);
    }
}

/// Appends a string in quotation marks.
#[inline(always)]
pub(crate) fn push_string(bytes: &[u8], text: &mut TextBuffer)
    ensures { text.new ≡ put text.old (compact_text (string bytes.now)) }
{
    text.push(b"\"");
    push_bytes(bytes, text);
    text.push(b"\"");
}

/// Appends a string, or `null`.
#[inline(always)]
pub(crate) fn push_string_or_null(bytes: Option<&[u8]>, text: &mut TextBuffer)
    ensures { text.new ≡ put text.old (compact_text (text_data (option_copied bytes.entry))) }
{
    match bytes {
        Some(bytes) => push_string(bytes, text),
        None => text.push(b"null"),
    }
}
