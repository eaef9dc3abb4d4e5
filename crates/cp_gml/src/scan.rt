// What stands where a token may begin.
ghost use Rattle.std.specs.Prelude.{◌≡◌, ℕ, ◌+◌, ◌<◌, ◌≤◌, ◌∷◌, length, false};
ghost use Rattle.std.specs.List.{prefix_len};
ghost use Rattle.cp_gml.specs.Bytes.{is_word_byte, is_number_byte, is_string_byte};
ghost use Rattle.cp_gml.specs.Tokens.{gap, piece, start, string_piece, number_piece};
ghost use Rattle.cp_gml.specs.Scans.{piece_of, IsWithin};

use crate::kind::GrammarKind;
use crate::{bytes, number};

// A value that is no list, over the bytes that begin with it.
#[derive(Clone, Copy)]
pub(crate) enum Plain {
    // A string of so many bytes between its quotes.
    Quoted(usize),
    // An integer in the range of ids.
    Integer(i32),
    // Any other number.
    Real,
}

// What stands at the front of some bytes, with the length of what varies.
#[derive(Clone, Copy)]
pub(crate) enum Scan {
    Opening,
    Closing,
    // A word of so many bytes.
    Name(usize),
    // A string or a number of so many bytes.
    Valued(Plain, usize),
    // Nothing that is a token.
    Wrong(GrammarKind),
    // The end of the text.
    Over,
}

// Where the first token may begin: behind a byte order mark, if there is one.
pub(crate) fn start_of(text: &[u8]) -> usize
    ensures value { result ≡ start text.now }
    ensures within { result ≤ length text.now }
{
    match text {
        [0xEF, 0xBB, 0xBF, ..] => 3,
        _ => 0,
    }
}

// The number of bytes of blanks and comments at the front.
pub(crate) fn gap_len(bytes: &[u8]) -> usize
    ensures value { result ≡ gap false bytes.now }
    ensures within { result ≤ length bytes.now }
{
    let mut inside = false;
    let mut len = 0;
    'reading: while len < bytes.len() {
        let byte = bytes[len];
        if inside {
            inside = !bytes::is_line_end(byte);
        } else if byte == b'#' {
            inside = true;
        } else if !bytes::is_blank(byte) {
            break;
        }
        len += 1;
    }
    len
}

fn word_len(bytes: &[u8]) -> usize
    ensures value { result ≡ prefix_len is_word_byte bytes.now }
    ensures within { result ≤ length bytes.now }
{
    bytes
        .iter()
        .take_while(|b| bytes::is_word_byte(**b))
        .count()
}

fn number_len(bytes: &[u8]) -> usize
    ensures value { result ≡ prefix_len is_number_byte bytes.now }
    ensures within { result ≤ length bytes.now }
{
    bytes
        .iter()
        .take_while(|b| bytes::is_number_byte(**b))
        .count()
}

fn string_len(bytes: &[u8]) -> usize
    ensures value { result ≡ prefix_len is_string_byte bytes.now }
    ensures within { result ≤ length bytes.now }
{
    bytes.iter().take_while(|b| **b != b'"').count()
}

// What a string is, behind its first quote.
fn scan_string(rest: &[u8]) -> Scan
    ensures value { (b : ℕ) → piece_of result (b ∷ rest.now) ≡ string_piece rest.now }
    ensures within { IsWithin result (length rest.now + 1) }
{
    let len = string_len(rest);
    if len == rest.len() {
        Scan::Wrong(GrammarKind::OpenString)
    } else {
        Scan::Valued(Plain::Quoted(len), len + 2)
    }
}

// What the run of bytes of numbers at the front is.
fn scan_number(bytes: &[u8]) -> Scan
    requires { 0 < prefix_len is_number_byte bytes.now }
    ensures value { piece_of result bytes.now ≡ number_piece bytes.now }
    ensures within { IsWithin result (length bytes.now) }
{
    let len = number_len(bytes);
    let run = &bytes[..len];
    if number::is_integer(run) {
        match number::integer_value(run) {
            Some(value) => Scan::Valued(Plain::Integer(value), len),
            None => Scan::Valued(Plain::Real, len),
        }
    } else if number::is_real(run) {
        Scan::Valued(Plain::Real, len)
    } else {
        Scan::Wrong(GrammarKind::BadNumber)
    }
}

// What stands at the front. Linear in the length of the token.
pub(crate) fn scan_piece(bytes: &[u8]) -> Scan
    ensures value { piece_of result bytes.now ≡ piece bytes.now }
    ensures within { IsWithin result (length bytes.now) }
{
    let [first, rest @ ..] = bytes else {
        return Scan::Over;
    };
    match *first {
        b'[' => Scan::Opening,
        b']' => Scan::Closing,
        b'"' => scan_string(rest),
        byte if bytes::is_word_start(byte) => Scan::Name(word_len(bytes)),
        byte if bytes::is_number_start(byte) => scan_number(bytes),
        _ => Scan::Wrong(GrammarKind::BadByte),
    }
}
