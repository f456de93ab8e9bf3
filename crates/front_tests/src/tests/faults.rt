//! Tests of the first token that no script can have.

use crate::tests::equal::assert_equal;
use crate::tests::reading::{read, tokens_of};
use sgl_lexer::Tokens;
use sgl_parser::{ParseFault, one_answer, one_reading, parse, shapes_are_spelled};
use sgl_tree::Script;
use sgl_values::Place;
use std::alloc::{AllocError, Global};
use std::process::Abort;
use std::test::Fail;
use test_cases::{SKIRMISH_MAIN, battle};

// A text in each row, with a sign before its first token that no script can have there, or at the end where there is
// none.
const FAULTS: &str = "@x
@;
@1
@on e { }
@let a = 1;
attr x const; @const
main(u) { } @}
main(u) { } @;
post { } @(
routine R(u) { } @else
attr @;
attr @1 const;
attr @const x;
attr x @;
attr x @x;
attr x @count = 0;
attr x @lowest = 0;
attr x const @= 0;
attr x const @
attr x sum @;
attr x sum = @x;
attr x sum = @+ 1;
attr x sum = - @- 1;
attr x min = - @x;
attr x max = 1 @+ 1;
attr x max = 1 @
attr x top @;
aggregate @(u) = count e;
aggregate A @= count e;
aggregate A(@) = count e;
aggregate A(u @r) = count e;
aggregate A(u, @) = count e;
aggregate A(u, @1) = count e;
aggregate A(u) @count e;
aggregate A(u) = @e;
aggregate A(u) = @where e.x = 1;
aggregate A(u) = count @.x;
aggregate A(u) = count e @.x;
aggregate A(u) = sum @;
aggregate A(u) = sum e @;
aggregate A(u) = lowest e.@1;
aggregate A(u) = min e.x @+ 1;
aggregate A(u) = nearest @;
aggregate A(u) = nearest e @x;
aggregate A(u) = nearest e @.x;
aggregate A(u) = nearest e(@);
aggregate A(u) = nearest e(x @);
aggregate A(u) = nearest e(x, @);
aggregate A(u) = nearest e(x, y @, z);
aggregate A(u) = count e @and e.x = 1;
aggregate A(u) = count e where @;
aggregate A(u) = count e where @1 = e.x;
aggregate A(u) = count e where x @= 1;
aggregate A(u) = count e where e.@= 1;
aggregate A(u) = count e where e.x @+ 1;
aggregate A(u) = count e where e.x @;
aggregate A(u) = count e where e.x = @;
aggregate A(u) = count e where e.x = 1 @or e.x = 2;
aggregate A(u) = count e where e.x = 1 @= 2;
aggregate A(u) = count e where e.x = 1 and @not e.y = 2;
aggregate A(u) = count e where e.x = @not 1;
aggregate A(u) = count e where within @x;
aggregate A(u) = count e where within(@5);
aggregate A(u) = count e where within(x, @5);
aggregate A(u) = count e where within(x, y @);
aggregate A(u) = count e where within(x, y, @);
aggregate A(u) = count e where within(x, y, 5 @= 5);
aggregate A(u) = count e where within(x, y, 5 @, 6);
aggregate A(u) = count e where within(x, y, 5) @+ 1;
aggregate A(u) = max e.x else @;
aggregate A(u) = max e.x else 1 @where e.x = 1;
aggregate A(u) = max e.x else - @;
aggregate A(u) = max e.x else 1 @else 2;
aggregate A(u) = max e.x @
action @on e { a <- 1; }
action A(u) @{ }
action A(u) @;
action A(u) on @{ a <- 1; }
action A(u) on e @;
action A(u) on e @else 1;
action A(u) on e where e.x = 1 @;
action A(u) on e { @}
action A(u) on e { a @= 1; }
action A(u) on e { a <- @; }
action A(u) on e { a <- 1 @}
action A(u) on e { a <- @by 1; }
action A(u) on e { a <- 1 by @; }
action A(u) on e { a <- 1 by 2 @by 3; }
action A(u) on e { a <- 1 by 2 @}
action A(u) on e { a <- 1; @1 }
action A(u) on e { a <- 1; @remove when true; }
action A(u) on e { a <- 1; } @{ }
action A(u) on e { a <- 1; } on @on
routine R @{ }
routine R(u) @;
routine R(u) { @a = 1; }
main @{ }
main(@) { }
main(u @, v) { }
main(u) @;
main(u) { @
main(u) { let @= 1; }
main(u) { let a @1; }
main(u) { let a = @; }
main(u) { let a = 1 @}
main(u) { let a = 1; @else { } }
main(u) { @; }
main(u) { @post { } }
main(u) { if @{ } }
main(u) { if true @; }
main(u) { if true { } else @if true { } }
main(u) { if true { } else { } @else { } }
main(u) { if true { @
main(u) { if true { } @
main(u) { perform @(u); }
main(u) { perform A @; }
main(u) { perform A(@); }
main(u) { perform A(@1); }
main(u) { perform A(u @1); }
main(u) { perform A(u, @); }
main(u) { perform A(u) @}
main(u) { perform A(u, 1 @; }
post @(u) { }
post { x @<- 1; }
post { x = @; }
post { x = 1 @}
post { @let a = 1; }
post { x @.y = 1; }
post { spawn @n { } }
post { spawn when @{ } }
post { spawn when n @; }
post { spawn when n { a @<- 1; } }
post { spawn when n { a = 1 @by 2; } }
post { spawn when n { @remove when n; } }
post { spawn when n { } @; }
post { spawn when n { } @x = 1; }
post { spawn when n { } @spawn when n { } }
post { remove when n; @spawn when n { } }
post { remove @x; }
post { remove when @; }
post { remove when true @}
post { remove when true; @x = 1; }
post { x = 1 @2; }
post { x = 1 + @; }
post { x = 1 + @* 2; }
post { x = 1 < 2 @< 3; }
post { x = a and @or b; }
post { x = 1 + @not 2; }
post { x = (@); }
post { x = (1 @; }
post { x = (1 @, 2); }
post { x = u.@1; }
post { x = u.x @.y; }
post { x = A(@1); }
post { x = A(u, 1 @; }
post { x = A(u) @(u); }
post { x = 1 @(2); }
post { x = true @.x; }
post { x = (u) @.x; }
post { x = random @; }
post { x = random(@); }
post { x = random(@u); }
post { x = random(1 @, 2); }
post { x = random(1) @.x; }
post { x = -@; }
post { x = - @not 1; }
post { x = not @; }
post { x = @top; }
post { x = 1 @by 2; }
post { x = 1 @<- 2; }
";

// The place of the token with this number, or the end of the text.
fn place_of(tokens: &Tokens, number: usize) -> Place {
    match tokens.list.as_slice().get(number) {
        Some(token) => token.place,
        None => tokens.end,
    }
}

// The number and the place of the token that no script can have, where one is told.
fn told_of(parsed: Result<Script, ParseFault>) -> Option<(usize, Place)> {
    match parsed {
        Err(ParseFault::Syntax { token, place }) => Some((token as usize, place)),
        _ => None,
    }
}

fn count_tokens(rt: &impl Abort, alloc: Global, text: &str) -> Result<usize, Fail> {
    Ok(tokens_of(rt, alloc, text.as_bytes())?.list.len())
}

// What is told of a text, and the place of the token with this number.
fn told_and_place(
    rt: &impl Abort,
    alloc: Global,
    text: &str,
    number: usize,
) -> Result<(Option<(usize, Place)>, Place), Fail> {
    let tokens = tokens_of(rt, alloc, text.as_bytes())?;
    let told = told_of(parse(alloc, text.as_bytes(), &tokens));
    Ok((told, place_of(&tokens, number)))
}

// In this front and what stands behind it, the first token that no script can have is the first
// behind the front.
fn assert_fault_behind(
    rt: &impl Abort,
    alloc: Global,
    front: &str,
    behind: &str,
) -> Result<(), Fail> {
    let wanted = count_tokens(rt, alloc, front)?;
    let text = format!(in alloc; "{front}{behind}")?;
    let (told, place) = told_and_place(rt, alloc, text.as_str(), wanted)?;
    assert_equal(
        rt,
        &(text.as_str(), told),
        &(text.as_str(), Some((wanted, place))),
    );
    Ok(())
}

fn assert_row(rt: &impl Abort, alloc: Global, row: &str) -> Result<(), Fail> {
    let (front, behind) = row.split_once('@').ok_or("a row without its sign")?;
    assert_fault_behind(rt, alloc, front, behind)
}

#[test]
fn a_fault_is_told_at_the_first_token_that_cannot_stand_there(rt: HostRuntime) -> Result<(), Fail> {
    assert_equal(&rt, &FAULTS.lines().count(), &170);
    for row in FAULTS.lines() {
        assert_row(&rt, rt.alloc(), row)?;
    }
    Ok(())
}

// Where the token with this number begins, or the end of the text.
fn start_of(tokens: &Tokens, number: usize, end: usize) -> usize {
    match tokens.list.as_slice().get(number) {
        Some(token) => token.start as usize,
        None => end,
    }
}

// The number of the token that no script can have, or none of a script.
fn fault_token(rt: &impl Abort, alloc: Global, text: &[u8]) -> Result<Option<u32>, Fail> {
    match read(rt, alloc, text)? {
        Ok(_) => Ok(None),
        Err(ParseFault::Syntax { token, .. }) => Ok(Some(token)),
        Err(fault) => Err(Fail::from(fault)),
    }
}

// How many fronts of a text are scripts; each other one stops at its end.
fn script_fronts(
    rt: &impl Abort,
    alloc: Global,
    text: &[u8],
    tokens: &Tokens,
) -> Result<usize, Fail> {
    let mut scripts = 0usize;
    for n in 0..=tokens.list.len() {
        let end = start_of(tokens, n, text.len());
        let front = text.get(..end).ok_or("a token behind the end")?;
        match fault_token(rt, alloc, front)? {
            Some(token) => assert_equal(rt, &(token as usize), &n),
            None => scripts = scripts.wrapping_add(1),
        }
    }
    Ok(scripts)
}

// Nine items and no item: each front that ends behind an item is a script, and every other one stops at its end.
#[test]
fn a_front_of_a_script_stops_at_its_end(rt: HostRuntime) -> Result<(), Fail> {
    let script = battle(rt.alloc(), SKIRMISH_MAIN)?;
    let text = script.as_str().as_bytes();
    let whole = tokens_of(&rt, rt.alloc(), text)?;
    assert_equal(&rt, &script_fronts(&rt, rt.alloc(), text, &whole)?, &10);
    Ok(())
}

fn push_times(text: &mut String, sign: &str, count: usize) -> Result<(), AllocError> {
    for _ in 0..count {
        text.push_str(sign)?;
    }
    Ok(())
}

// Puts these signs behind a text, so many each, round a number.
fn push_nested(
    text: &mut String,
    (opening, count, closing): (&str, usize, &str),
) -> Result<(), AllocError> {
    push_times(text, opening, count)?;
    text.push_str("1")?;
    push_times(text, closing, count)
}

// What is told of a text with these signs round a number.
fn nested_fault(
    rt: &impl Abort,
    alloc: Global,
    before: &str,
    signs: (&str, usize, &str),
    behind: &str,
) -> Result<Option<ParseFault>, Fail> {
    let mut text = String::from_str(alloc, before)?;
    push_nested(&mut text, signs)?;
    text.push_str(behind)?;
    Ok(read(rt, alloc, text.as_bytes())?.err())
}

const LET: &str = "main(u) { let a = ";

// In `let a = ((..1..));` of `main` the brace and the sign `=` nest by 2, and each bracket by 1.
#[test]
fn brackets_nest_up_to_a_depth_of_64(rt: HostRuntime) -> Result<(), Fail> {
    let told = nested_fault(&rt, rt.alloc(), LET, ("(", 62, ")"), "; }")?;
    assert_equal(&rt, &told, &None);
    Ok(())
}

fn too_deep(col: u32) -> Option<ParseFault> {
    let place = Place { line: 1, col };
    Some(ParseFault::TooDeep { place })
}

#[test]
fn a_deep_bracket_before_a_fault_is_told(rt: HostRuntime) -> Result<(), Fail> {
    for behind in ["; }", "; } ;"] {
        let told = nested_fault(&rt, rt.alloc(), LET, ("(", 63, ")"), behind)?;
        assert_equal(&rt, &(behind, told), &(behind, too_deep(81)));
    }
    Ok(())
}

#[test]
fn a_chain_of_signs_may_be_longer_than_any_stack(rt: HostRuntime) -> Result<(), Fail> {
    let told = nested_fault(&rt, rt.alloc(), "post { x = ", ("-", 100_000, ""), "; }")?;
    assert_equal(&rt, &told, &too_deep(74));
    Ok(())
}

#[test]
fn a_fault_before_a_deep_bracket_is_told(rt: HostRuntime) -> Result<(), Fail> {
    let before = "main(u) { ; } main(u) { let a = ";
    let told = nested_fault(&rt, rt.alloc(), before, ("(", 63, ")"), "; }")?;
    let place = Place { line: 1, col: 11 };
    assert_equal(&rt, &told, &Some(ParseFault::Syntax { token: 5, place }));
    Ok(())
}

#[test]
fn laws_of_parsing_can_be_called() {
    one_reading();
    shapes_are_spelled();
    one_answer();
}
