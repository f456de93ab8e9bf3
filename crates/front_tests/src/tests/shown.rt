//! Trees as text, with all brackets and places: each part is put behind what is written.

use sgl_tree::{Expr, Fold, Item, Name, OnClause, Rule, Spawn, Stmt, Test, Write};
use sgl_values::{BinOp, Place};
use std::alloc::AllocError;
use std::fmt::Display;

// A word or a number with its place.
fn push_at<D: Display + Drop>(text: &mut String, word: D, place: Place) -> Result<(), AllocError> {
    write!(text, "{word}@{}:{}", place.line, place.col)
}

// A name with its place, behind this.
fn push_name(text: &mut String, before: &str, name: &Name) -> Result<(), AllocError> {
    text.push_str(before)?;
    push_at(text, name.text.as_str(), name.place)
}

// Two names, behind this and with this between them.
fn push_names(
    text: &mut String,
    before: &str,
    first: &Name,
    between: &str,
    second: &Name,
) -> Result<(), AllocError> {
    push_name(text, before, first)?;
    push_name(text, between, second)
}

// What stands before the first part of an expression, or the whole of one that has none.
fn push_opening(text: &mut String, expr: &Expr) -> Result<(), AllocError> {
    match expr {
        Expr::Number { value, place } => push_at(text, *value, *place),
        Expr::Truth { value, place } => push_at(text, *value, *place),
        Expr::Local { name } => push_name(text, "", name),
        Expr::Field { of, attr } => push_names(text, "", of, ".", attr),
        Expr::Random { index, place, .. } => {
            push_at(text, format_args!("random({index})"), *place)
        }
        Expr::Call { name, unit, .. } => push_names(text, "", name, "(", unit),
        Expr::Neg { place, .. } => push_at(text, "(-", *place),
        Expr::Not { place, .. } => push_at(text, "(not", *place),
        Expr::Binary { .. } => text.push_str("("),
    }
}

fn push_operator(text: &mut String, op: BinOp, place: Place) -> Result<(), AllocError> {
    write!(text, " {op:?}@{}:{}", place.line, place.col)
}

/// An expression, behind this.
pub fn push_expr(text: &mut String, before: &str, expr: &Expr) -> Result<(), AllocError> {
    text.push_str(before)?;
    push_opening(text, expr)?;
    match expr {
        Expr::Call { args, .. } => {
            for arg in args.as_slice() {
                push_expr(text, ", ", arg)?;
            }
        }
        Expr::Neg { inner, .. } | Expr::Not { inner, .. } => push_expr(text, " ", inner.get())?,
        Expr::Binary {
            place,
            left,
            op,
            right,
        } => {
            push_expr(text, "", left.get())?;
            push_operator(text, *op, *place)?;
            push_expr(text, " ", right.get())?;
        }
        _ => return Ok(()),
    }
    text.push_str(")")
}

// A name and an expression, behind this and with this between them.
fn push_named(
    text: &mut String,
    before: &str,
    name: &Name,
    between: &str,
    expr: &Expr,
) -> Result<(), AllocError> {
    push_name(text, before, name)?;
    push_expr(text, between, expr)
}

fn push_count(text: &mut String, count: usize) -> Result<(), AllocError> {
    write!(text, " {count}")
}

// A name and how many there are of something, behind this.
fn push_counted(
    text: &mut String,
    before: &str,
    name: &Name,
    count: usize,
) -> Result<(), AllocError> {
    push_name(text, before, name)?;
    push_count(text, count)
}

// A statement, in a line of its own.
fn push_statement(text: &mut String, statement: &Stmt) -> Result<(), AllocError> {
    match statement {
        Stmt::Let { name, value } => push_named(text, "\nlet ", name, " ", value),
        Stmt::If { cond, yes, no } => {
            push_expr(text, "\nif ", cond)?;
            push_count(text, yes.len())?;
            push_count(text, no.len())
        }
        Stmt::Perform {
            place,
            name,
            unit,
            args,
        } => {
            push_at(text, "\nperform", *place)?;
            push_name(text, " ", name)?;
            push_counted(text, " ", unit, args.len())
        }
    }
}

fn push_statements(text: &mut String, statements: &[Stmt]) -> Result<(), AllocError> {
    for statement in statements {
        push_statement(text, statement)?;
    }
    Ok(())
}

// A name, or a dash for none.
fn push_option(text: &mut String, name: &Option<Name>) -> Result<(), AllocError> {
    match name {
        Some(name) => push_name(text, " ", name),
        None => text.push_str(" -"),
    }
}

// A fold, and whether there is a value where no row passes.
fn push_fold(text: &mut String, fold: &Fold, otherwise: bool) -> Result<(), AllocError> {
    push_at(text, format_args!("\n{:?}", fold.kind), fold.place)?;
    push_name(text, " ", &fold.row)?;
    push_option(text, &fold.attr)?;
    push_option(text, &fold.second)?;
    write!(text, " {otherwise}")
}

fn push_test(text: &mut String, test: &Test) -> Result<(), AllocError> {
    match test {
        Test::Compare {
            op,
            row,
            attr,
            right,
        } => {
            push_names(text, "\n", row, ".", attr)?;
            write!(text, " {op:?}")?;
            push_expr(text, " ", right)
        }
        Test::Within {
            place,
            x,
            y,
            radius,
        } => {
            push_at(text, "\nwithin", *place)?;
            push_names(text, " ", x, " ", y)?;
            push_expr(text, " ", radius)
        }
    }
}

fn push_tests(text: &mut String, tests: &[Test]) -> Result<(), AllocError> {
    for test in tests {
        push_test(text, test)?;
    }
    Ok(())
}

// A write by its attribute, its amount and its priority.
fn push_write(text: &mut String, write: &Write) -> Result<(), AllocError> {
    push_named(text, "\n", &write.attr, ": ", &write.value)?;
    match &write.by {
        Some((place, priority)) => {
            push_at(text, " by", *place)?;
            push_expr(text, " ", priority)
        }
        None => Ok(()),
    }
}

// A clause of an action and its writes, a line each.
fn push_clause(text: &mut String, on: &OnClause) -> Result<(), AllocError> {
    push_at(text, "\non", on.place)?;
    push_counted(text, " ", &on.row, on.tests.len())?;
    for write in on.writes.as_slice() {
        push_write(text, write)?;
    }
    Ok(())
}

fn push_clauses(text: &mut String, ons: &[OnClause]) -> Result<(), AllocError> {
    for on in ons {
        push_clause(text, on)?;
    }
    Ok(())
}

// Rules by their attributes and values, a line each.
fn push_rules(text: &mut String, rules: &[Rule]) -> Result<(), AllocError> {
    for rule in rules {
        push_named(text, "\n", &rule.attr, ": ", &rule.value)?;
    }
    Ok(())
}

// What stands in the block behind the main routine, a line for each part.
fn push_post(
    text: &mut String,
    rules: &[Rule],
    spawn: &Option<Spawn>,
    removal: &Option<Expr>,
) -> Result<(), AllocError> {
    push_rules(text, rules)?;
    if let Some(spawn) = spawn {
        push_expr(text, "\nspawn ", &spawn.cond)?;
        push_rules(text, spawn.rules.as_slice())?;
    }
    match removal {
        Some(removal) => push_expr(text, "\nremove ", removal),
        None => Ok(()),
    }
}

// An item by its first line.
fn push_head(text: &mut String, item: &Item) -> Result<(), AllocError> {
    match item {
        Item::Attr { name, tag, init } => {
            push_name(text, "\nattr ", name)?;
            write!(text, " {tag:?} {init:?}")
        }
        Item::Aggregate { name, params, .. } => {
            push_counted(text, "\naggregate ", name, params.len())
        }
        Item::Action { name, params, .. } => { push_counted(text, "\naction ", name, params.len()) }
        Item::Routine { name, params, body } => {
            push_counted(text, "\nroutine ", name, params.len())?;
            push_count(text, body.len())
        }
        Item::Main { place, unit, .. } => {
            push_at(text, "\nmain", *place)?;
            push_name(text, " ", unit)
        }
        Item::Post { place, .. } => push_at(text, "\npost", *place),
    }
}

// What stands in an item behind its first line, a line for each part.
fn push_parts(text: &mut String, item: &Item) -> Result<(), AllocError> {
    match item {
        Item::Aggregate {
            fold,
            otherwise,
            tests,
            ..
        } => {
            push_fold(text, fold, otherwise.is_some())?;
            push_tests(text, tests.as_slice())
        }
        Item::Action { ons, .. } => push_clauses(text, ons.as_slice()),
        Item::Main { body, .. } => push_statements(text, body.as_slice()),
        Item::Post {
            rules,
            spawn,
            removal,
            ..
        } => push_post(text, rules.as_slice(), spawn, removal),
        Item::Attr { .. } | Item::Routine { .. } => Ok(()),
    }
}

/// What stands in an item, each part in a line behind what is written.
pub fn push_item(text: &mut String, item: &Item) -> Result<(), AllocError> {
    push_head(text, item)?;
    push_parts(text, item)
}
