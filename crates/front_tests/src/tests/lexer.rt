//! Tests of the tokens of a text.

use crate::tests::equal::assert_equal;
use sgl_lexer::{LexFault, Sign, Token, TokenKind, Tokens, Word, lex, one_lexing};
use sgl_values::{Place, SCRIPT_BYTES_MAX};
use std::alloc::{AllocError, Global};
use std::process::Abort;
use std::test::Fail;

fn lexed(rt: &impl Abort, alloc: Global, text: &[u8]) -> Result<Tokens, LexFault> {
    assert!(rt; text.len() <= SCRIPT_BYTES_MAX);
    lex(alloc, text)
}

fn push_kinds(kinds: &mut Vec<TokenKind>, tokens: &[Token]) -> Result<(), AllocError> {
    for token in tokens {
        kinds.push(token.kind)?;
    }
    Ok(())
}

// The kinds of the tokens of a text that has no fault of theirs.
fn kinds_of(rt: &impl Abort, alloc: Global, text: &[u8]) -> Result<Vec<TokenKind>, Fail> {
    let tokens = lexed(rt, alloc, text)?;
    let mut kinds = Vec::new(alloc);
    push_kinds(&mut kinds, tokens.list.as_slice())?;
    Ok(kinds)
}

fn assert_kinds(
    rt: &impl Abort,
    alloc: Global,
    text: &[u8],
    wanted: &[TokenKind],
) -> Result<(), Fail> {
    let kinds = kinds_of(rt, alloc, text)?;
    assert_equal(rt, &(text, kinds.as_slice()), &(text, wanted));
    Ok(())
}

fn place(line: u32, col: u32) -> Place {
    Place { line, col }
}

#[test]
fn the_longest_token_is_taken(rt: HostRuntime) -> Result<(), Fail> {
    let name = TokenKind::Name;
    let one = TokenKind::Number(1);
    let arrow = TokenKind::Sign(Sign::Arrow);
    let less = TokenKind::Sign(Sign::Less);
    let less_equal = TokenKind::Sign(Sign::LessEqual);
    let minus = TokenKind::Sign(Sign::Minus);
    let greater = TokenKind::Sign(Sign::Greater);
    let rows: [(&str, &[TokenKind]); 6] = [
        ("a <-1", &[name, arrow, one]),
        ("a < -1", &[name, less, minus, one]),
        ("<-<=", &[arrow, less_equal]),
        ("<<=", &[less, less_equal]),
        ("< >", &[less, greater]),
        ("1a", &[one, name]),
    ];
    for (text, wanted) in rows {
        assert_kinds(&rt, rt.alloc(), text.as_bytes(), wanted)?;
    }
    Ok(())
}

#[test]
fn names_numbers_and_words_are_one_token(rt: HostRuntime) -> Result<(), Fail> {
    let rows = [
        ("a1", TokenKind::Name),
        ("_", TokenKind::Name),
        ("key", TokenKind::Name),
        ("Attr", TokenKind::Name),
        ("001", TokenKind::Number(1)),
        ("abcdefghijklmnopqrstuvwxyz_2345", TokenKind::Name),
        (
            "9999999999999999999",
            TokenKind::Number(9_999_999_999_999_999_999),
        ),
        ("#\u{E9} a\nmain # 1", TokenKind::Word(Word::Main)),
    ];
    for (text, kind) in rows {
        assert_kinds(&rt, rt.alloc(), text.as_bytes(), &[kind])?;
    }
    Ok(())
}

#[test]
fn blanks_and_comments_are_no_tokens(rt: HostRuntime) -> Result<(), Fail> {
    for text in ["", " \t\r\n", "# all of it", "#", "\u{FEFF}"] {
        assert_kinds(&rt, rt.alloc(), text.as_bytes(), &[])?;
    }
    assert_kinds(&rt, rt.alloc(), b"#\xFF\x00@\n\n# more", &[])
}

// Whether a token is the word that is written so: a word has its name, with a capital first letter.
fn is_word(alloc: Global, kind: TokenKind, written: &str) -> Result<bool, AllocError> {
    let kind = format!(in alloc; "{kind:?}")?;
    let wanted = format!(in alloc; "Word({written})")?;
    Ok(kind.eq_ignore_ascii_case(&wanted))
}

// These tokens are the words of this line, one by one.
fn assert_words(rt: &impl Abort, alloc: Global, tokens: &[Token], words: &str) -> Result<(), Fail> {
    for (token, written) in tokens.iter().zip(words.split(' ')) {
        assert!(rt; is_word(alloc, token.kind, written)?, "{written}");
    }
    Ok(())
}

#[test]
fn every_reserved_word_is_a_word(rt: HostRuntime) -> Result<(), Fail> {
    let words =
        "attr const sum min max aggregate action routine main post count lowest highest where else on let if perform remove when and or not true false random top by spawn nearest within";
    let tokens = lexed(&rt, rt.alloc(), words.as_bytes())?;
    assert_equal(&rt, &tokens.list.len(), &32);
    assert_words(&rt, rt.alloc(), tokens.list.as_slice(), words)
}

#[test]
fn a_word_with_a_letter_more_is_a_name(rt: HostRuntime) -> Result<(), Fail> {
    let names =
        b"attrs consts sums mins maxs aggregates actions routines mains posts counts lowests highests wheres elses ons lets ifs performs removes whens ands ors nots trues falses randoms tops bys spawns nearests withins";
    assert_kinds(&rt, rt.alloc(), names, &[TokenKind::Name; 32])
}

const SIGNS: &str = "( ) { } , ; . + - * / % = <> < <= > >= <-";

const SIGN_KINDS: [TokenKind; 19] = [
    TokenKind::Sign(Sign::ParenOpen),
    TokenKind::Sign(Sign::ParenClose),
    TokenKind::Sign(Sign::BraceOpen),
    TokenKind::Sign(Sign::BraceClose),
    TokenKind::Sign(Sign::Comma),
    TokenKind::Sign(Sign::Semicolon),
    TokenKind::Sign(Sign::Dot),
    TokenKind::Sign(Sign::Plus),
    TokenKind::Sign(Sign::Minus),
    TokenKind::Sign(Sign::Star),
    TokenKind::Sign(Sign::Slash),
    TokenKind::Sign(Sign::Percent),
    TokenKind::Sign(Sign::Equal),
    TokenKind::Sign(Sign::NotEqual),
    TokenKind::Sign(Sign::Less),
    TokenKind::Sign(Sign::LessEqual),
    TokenKind::Sign(Sign::Greater),
    TokenKind::Sign(Sign::GreaterEqual),
    TokenKind::Sign(Sign::Arrow),
];

#[test]
fn every_sign_is_a_sign(rt: HostRuntime) -> Result<(), Fail> {
    assert_kinds(&rt, rt.alloc(), SIGNS.as_bytes(), &SIGN_KINDS)
}

#[test]
fn a_sign_alone_is_a_sign(rt: HostRuntime) -> Result<(), Fail> {
    assert_equal(&rt, &SIGNS.split(' ').count(), &19);
    for (sign, kind) in SIGNS.split(' ').zip(SIGN_KINDS) {
        assert_kinds(&rt, rt.alloc(), sign.as_bytes(), &[kind])?;
    }
    Ok(())
}

// The token of a name, by its first byte, its end and its place.
fn name(start: u32, end: u32, line: u32, col: u32) -> Token {
    Token {
        kind: TokenKind::Name,
        start,
        end,
        place: Place { line, col },
    }
}

#[test]
fn tokens_have_bytes_and_places(rt: HostRuntime) -> Result<(), Fail> {
    let text = b"\xEF\xBB\xBFab\r\n  c # x\n\tdef";
    let tokens = lexed(&rt, rt.alloc(), text)?;
    let wanted = [name(3, 5, 1, 1), name(9, 10, 2, 3), name(16, 19, 3, 2)];
    assert_equal(&rt, &tokens.list.as_slice(), &wanted.as_slice());
    Ok(())
}

fn end_of(rt: &impl Abort, alloc: Global, text: &str) -> Result<Place, LexFault> {
    Ok(lexed(rt, alloc, text.as_bytes())?.end)
}

#[test]
fn a_text_ends_behind_its_last_byte(rt: HostRuntime) {
    let rows = [
        ("", 1, 1),
        ("\u{FEFF}", 1, 1),
        ("a", 1, 2),
        ("a\n", 2, 1),
        ("a\r\n", 2, 1),
        ("a\r", 1, 3),
        ("\n\n  ", 3, 3),
        ("#\u{E9}", 1, 4),
    ];
    for (text, line, col) in rows {
        let end = end_of(&rt, rt.alloc(), text);
        assert_equal(&rt, &(text, end), &(text, Ok(place(line, col))));
    }
}

fn assert_fault(rt: &impl Abort, alloc: Global, text: &[u8], fault: LexFault) {
    let told = lexed(rt, alloc, text).err();
    assert_equal(rt, &(text, told), &(text, Some(fault)));
}

#[test]
fn the_first_bad_byte_is_told(rt: HostRuntime) {
    let rows = [
        ("a @", 1, 3),
        ("a\r\n!=", 2, 1),
        ("\u{FEFF}@", 1, 1),
        ("\u{FEFF}\u{FEFF}", 1, 1),
        (" \u{FEFF}", 1, 2),
        ("$ 12345678901234567890", 1, 1),
    ];
    for (text, line, col) in rows {
        assert_fault(
            &rt,
            rt.alloc(),
            text.as_bytes(),
            LexFault::BadByte(place(line, col)),
        );
    }
    assert_fault(&rt, rt.alloc(), b"\xEF\xBB", LexFault::BadByte(place(1, 1)));
}

#[test]
fn what_is_too_long_is_told(rt: HostRuntime) {
    let name = b"abcdefghijklmnopqrstuvwxyz_23456";
    assert_fault(&rt, rt.alloc(), name, LexFault::LongName(place(1, 1)));
    let number = b"# a\n12345678901234567890 $";
    assert_fault(&rt, rt.alloc(), number, LexFault::LongNumber(place(2, 1)));
}

fn shown(alloc: Global, fault: LexFault) -> Result<String, AllocError> {
    format!(in alloc; "{fault}")
}

#[test]
fn faults_print_their_words(rt: HostRuntime) -> Result<(), Fail> {
    let rows = [
        (LexFault::BadByte(place(1, 3)), "bad byte at 1:3"),
        (LexFault::LongName(place(20, 1)), "long name at 20:1"),
        (LexFault::LongNumber(place(2, 11)), "long number at 2:11"),
        (LexFault::Memory, "out of memory"),
    ];
    for (fault, words) in rows {
        assert_equal(&rt, &shown(rt.alloc(), fault)?.as_str(), &words);
    }
    Ok(())
}

// How many tokens the largest text of this byte alone has, or none where it has a fault.
fn count_largest(rt: &impl Abort, alloc: Global, byte: u8) -> Result<Option<usize>, Fail> {
    let text = vec![in alloc; byte; 1_048_576]?;
    match lexed(rt, alloc, &text) {
        Ok(tokens) => Ok(Some(tokens.list.len())),
        Err(_) => Ok(None),
    }
}

#[test]
fn the_largest_texts_are_read_once(rt: HostRuntime) -> Result<(), Fail> {
    let rows = [
        (b'+', Some(1_048_576)),
        (b'(', Some(1_048_576)),
        (b'#', Some(0)),
        (b' ', Some(0)),
        (b'a', None),
        (b'1', None),
    ];
    for (byte, count) in rows {
        let found = count_largest(&rt, rt.alloc(), byte)?;
        assert_equal(&rt, &(byte, found), &(byte, count));
    }
    Ok(())
}

#[test]
fn the_law_of_lexing_can_be_called() {
    one_lexing();
}
