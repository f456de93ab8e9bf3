//! Cuts a text into its tokens, each the longest at its place, or tells the text's first fault.

ghost use Rattle.std.specs.Prelude.{◌≡◌, ◌<◌, ◌≤◌, ◌≢◌, length, IfOk, IfErr, IfSome, IfNone};
ghost use Rattle.std.specs.List.{prefix_len};
ghost use Rattle.std.specs.Char.{is_ascii_digit};
ghost use Rattle.sgl_lexer.specs.Kinds.{begins_name, continues_name, number_behind, word_text, sign_text, IsLongest, IsNameText, IsNumberText, IsOfKind, Begins};
ghost use Rattle.sgl_lexer.specs.Lexing.{is_blank, gap_len, mark_len, Fits, IsFaulty, HasFault, AreTokensOf};

use crate::fault::LexFault;
use crate::lexeme::{Token, TokenKind, Tokens};
use crate::position::place_after;
use crate::vocabulary::{Sign, Word};
use sgl_values::{List, NAME_BYTES_MAX, NUMBER_DIGITS_MAX, Place, SCRIPT_BYTES_MAX};
use std::alloc::Global;

// A space, a tab, a line feed or a carriage return.
fn is_blank(byte: u8) -> bool
    ensures { result ≡ is_blank byte }
{
    matches!(byte, b' ' | b'\t' | b'\n' | b'\r')
}

// A letter or the underscore.
fn begins_name(byte: u8) -> bool
    ensures { result ≡ begins_name byte }
{
    byte.is_ascii_alphabetic() || byte == b'_'
}

// A letter, a digit or the underscore.
fn continues_name(byte: u8) -> bool
    ensures { result ≡ continues_name byte }
{
    begins_name(byte) || byte.is_ascii_digit()
}

// How many bytes at the front continue a name.
fn name_len(text: &[u8]) -> usize
    ensures { result ≡ prefix_len continues_name text.now }
{
    text.iter()
        .take_while(|byte| continues_name(**byte))
        .count()
}

// How many bytes at the front are digits.
fn digits_len(text: &[u8]) -> usize
    ensures { result ≡ prefix_len is_ascii_digit text.now }
{
    text.iter().take_while(|byte| byte.is_ascii_digit()).count()
}

// The number that digits write.
fn number(digits: &[u8]) -> u64
    requires few { length digits.now ≤ NUMBER_DIGITS_MAX }
    requires digits { IsNumberText digits.now }
    ensures { result ≡ number_behind 0 digits.now }
{
    let mut value = 0;
    for digit in digits {
        value = 10 * value + u64::from(*digit - b'0');
    }
    value
}

// The reserved word that a name is.
fn reserved(name: &[u8]) -> Option<Word>
    ensures none { IfNone result ((w : Word) → name.now ≢ word_text w) }
    ensures some { IfSome result (λ w. name.now ≡ word_text w) }
{
    for word in Word::ALL {
        if word.text() == name {
            return Some(word);
        }
    }
    None
}

// The kind of a token with the text of a name.
fn word_or_name(name: &[u8]) -> TokenKind
    requires { IsNameText name.now }
    ensures kind { IsOfKind name.now result }
    ensures fits { length name.now ≤ NAME_BYTES_MAX → Fits result (length name.now) }
{
    match reserved(name) {
        Some(word) => TokenKind::Word(word),
        None => TokenKind::Name,
    }
}

// The longest sign at the front.
fn sign_at(text: &[u8]) -> Option<Sign>
    ensures none { IfNone result ((s : Sign) → Begins (sign_text s) text.now → ⊥) }
    ensures begins { IfSome result (λ s. Begins (sign_text s) text.now) }
    ensures longest { IfSome result (λ s. (t : Sign) → Begins (sign_text t) text.now
        → length (sign_text t) ≤ length (sign_text s)) }
{
    for sign in Sign::ALL {
        if text.starts_with(sign.text()) {
            return Some(sign);
        }
    }
    None
}

// How many bytes of blanks and comments stand at the front.
fn gap_len(text: &[u8]) -> usize
    ensures value { result ≡ gap_len text.now }
    ensures within { result ≤ length text.now }
{
    let mut in_comment = false;
    for (len, byte) in text.iter().enumerate() {
        if in_comment {
            in_comment = *byte != b'\n';
        } else if *byte == b'#' {
            in_comment = true;
        } else if !is_blank(*byte) {
            return len;
        }
    }
    text.len()
}

// How many bytes the mark at the very start of a text takes.
fn mark_len(text: &[u8]) -> usize
    ensures value { result ≡ mark_len text.now }
    ensures within { result ≤ length text.now }
{
    if text.starts_with(b"\xEF\xBB\xBF") {
        3
    } else {
        0
    }
}

// The longest token at the front, and how many bytes it takes.
fn token_at(text: &[u8], place: Place) -> Result<(TokenKind, usize), LexFault>
    requires { 0 < length text.now }
    ensures longest { IfOk result (λ found. IsLongest found.0 found.1 text.now) }
    ensures nonempty { IfOk result (λ found. 0 < found.1) }
    ensures fits { IfOk result (λ found. Fits found.0 found.1) }
    ensures fault { IfErr result (λ fault. IsFaulty text.now place fault) }
{
    let first = text[0];
    if begins_name(first) {
        let len = name_len(text);
        let kind = word_or_name(&text[..len]);
        if len > NAME_BYTES_MAX {
            return Err(LexFault::LongName(place));
        }
        return Ok((kind, len));
    }
    if first.is_ascii_digit() {
        let len = digits_len(text);
        if len > NUMBER_DIGITS_MAX {
            return Err(LexFault::LongNumber(place));
        }
        return Ok((TokenKind::Number(number(&text[..len])), len));
    }
    match sign_at(text) {
        Some(sign) => Ok((TokenKind::Sign(sign), sign.text().len())),
        None => Err(LexFault::BadByte(place)),
    }
}

/// Cuts a text into tokens, each the longest that stands at its place, with blanks and comments between them.
///
/// A comment runs from `#` to the end of its line; the bytes EF BB BF at the very start of the text are skipped. The
/// first fault of the text refuses it: a byte that begins nothing, a word of more than 31 bytes or a number of more than
/// 19 digits. `Memory` may come instead of any answer. Each byte is read a bounded number of times.
pub fn lex(alloc: Global, text: &[u8]) -> Result<Tokens, LexFault>
    requires { length text.now ≤ SCRIPT_BYTES_MAX }
    ensures tokens { IfOk result (AreTokensOf text.now) }
    ensures fault { IfErr result (HasFault text.now) }
{
    let mut list = List::new(alloc);
    let mut at = mark_len(text);
    let mut place = Place::START;
    loop {
        let gap = gap_len(&text[at..]);
        place = place_after(place, &text[at..][..gap]);
        at += gap;
        if at == text.len() {
            return Ok(Tokens { list, end: place });
        }
        let (kind, len) = token_at(&text[at..], place)?;
        list.push(Token {
            kind,
            start: at as u32,
            end: (at + len) as u32,
            place,
        })?;
        place = place_after(place, &text[at..][..len]);
        at += len;
    }
}
