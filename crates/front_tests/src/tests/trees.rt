//! Tests of the trees that tokens spell.

use crate::tests::equal::assert_equal;
use crate::tests::reading::{read, script_of};
use crate::tests::shown::{push_expr, push_item};
use sgl_tree::{Item, Rule, Script};
use sgl_values::Place;
use std::alloc::{AllocError, Global};
use std::process::Abort;
use std::test::Fail;

const WHOLE: &str = "attr x const;
attr d top = -1;
aggregate Near(u, r) = lowest e.x where e.x <> u.x and e.x < r + 1 else 0;
aggregate Close(u) = nearest e(x, y) where within(x, y, 5);
action Hit(u, t) on e where e.key = t { d <- 1; d <- t by 2 + t; } on f { d <- f.x; }
routine R(u) { perform Hit(u, 1); }
main(u) {
  let a = Near(u, random(3));
  if a > 0 { perform R(u); } else { }
  perform Hit(u, a);
}
post { x = x + d; spawn when x > 5 { x = 1; } remove when x < 0; }
";

// The tree of this script: each line behind the end of another.
const WHOLE_TREE: &str = "
attr x@1:6 None None
attr d@2:6 Some(Top) Some(Literal { negative: true, value: 1, place: Place { line: 2, col: 15 } })
aggregate Near@3:11 2
Lowest@3:24 e@3:31 x@3:33 - true
e@3:41.x@3:43 Ne u@3:48.x@3:50
e@3:56.x@3:58 Lt (r@3:62 Add@3:64 1@3:66)
aggregate Close@4:11 1
Nearest@4:22 e@4:30 x@4:32 y@4:35 false
within@4:44 x@4:51 y@4:54 5@4:57
action Hit@5:8 2
on@5:18 e@5:21 1
d@5:41: 1@5:46
d@5:49: t@5:54 by@5:56 (2@5:59 Add@5:61 t@5:63)
on@5:68 f@5:71 0
d@5:75: f@5:80.x@5:82
routine R@6:9 1 1
main@7:1 u@7:6
let a@8:7 Near@8:11(u@8:16, random(3)@8:19)
if (a@9:6 Cmp(Gt)@9:8 0@9:10) 1 0
perform@10:3 Hit@10:11 u@10:15 1
post@12:1
x@12:8: (x@12:12 Add@12:14 d@12:16)
spawn (x@12:30 Cmp(Gt)@12:32 5@12:34)
x@12:38: 1@12:42
remove (x@12:59 Cmp(Lt)@12:61 0@12:63)";

fn tree_of(alloc: Global, script: &Script) -> Result<String, AllocError> {
    let mut text = String::new(alloc);
    for item in script.items.as_slice() {
        push_item(&mut text, item)?;
    }
    Ok(text)
}

#[test]
fn a_script_of_all_items_has_this_tree(rt: HostRuntime) -> Result<(), Fail> {
    let script = script_of(&rt, rt.alloc(), WHOLE.as_bytes())?;
    let tree = tree_of(rt.alloc(), &script)?;
    let end = Place { line: 13, col: 1 };
    assert_equal(&rt, &(tree.as_str(), script.end), &(WHOLE_TREE, end));
    Ok(())
}

fn push_values(text: &mut String, rules: &[Rule]) -> Result<(), AllocError> {
    for rule in rules {
        push_expr(text, "", &rule.value)?;
    }
    Ok(())
}

// The values of all rules of a script, one behind the other.
fn values_of(alloc: Global, script: &Script) -> Result<String, AllocError> {
    let mut text = String::new(alloc);
    for item in script.items.as_slice() {
        if let Item::Post { rules, .. } = item {
            push_values(&mut text, rules.as_slice())?;
        }
    }
    Ok(text)
}

// How many items a text has, and the values of its rules.
fn items_and_values(rt: &impl Abort, alloc: Global, text: &str) -> Result<(usize, String), Fail> {
    let script = script_of(rt, alloc, text.as_bytes())?;
    let values = values_of(alloc, &script)?;
    Ok((script.items.len(), values))
}

#[test]
fn expressions_group_by_strength_and_to_the_left(rt: HostRuntime) -> Result<(), Fail> {
    let rows = [
        (
            "post { x = 1 - 2 - 3; }",
            "((1@1:12 Sub@1:14 2@1:16) Sub@1:18 3@1:20)",
        ),
        (
            "post { x = a + b * c; }",
            "(a@1:12 Add@1:14 (b@1:16 Mul@1:18 c@1:20))",
        ),
        (
            "post { x = (a + b) * c; }",
            "((a@1:13 Add@1:15 b@1:17) Mul@1:20 c@1:22)",
        ),
        ("post { x = -a * b; }", "((-@1:12 a@1:13) Mul@1:15 b@1:17)"),
        (
            "post { x = -(a * b); }",
            "(-@1:12 (a@1:14 Mul@1:16 b@1:18))",
        ),
        ("post { x = 7 - - 1; }", "(7@1:12 Sub@1:14 (-@1:16 1@1:18))"),
        (
            "post { x = not a = b and c or d; }",
            "(((not@1:12 (a@1:16 Cmp(Eq)@1:18 b@1:20)) And@1:22 c@1:26) Or@1:28 d@1:31)",
        ),
        (
            "post { x = f(u, 1, a.b); }",
            "f@1:12(u@1:14, 1@1:17, a@1:20.b@1:22)",
        ),
        ("post\n{\nx\n=\ntrue; }", "true@5:1"),
    ];
    for (text, wanted) in rows {
        let (count, values) = items_and_values(&rt, rt.alloc(), text)?;
        assert_equal(&rt, &(text, count, values.as_str()), &(text, 1, wanted));
    }
    Ok(())
}

fn is_read(rt: &impl Abort, alloc: Global, text: &str) -> Result<bool, Fail> {
    Ok(read(rt, alloc, text.as_bytes())?.is_ok())
}

#[test]
fn small_scripts_are_read(rt: HostRuntime) -> Result<(), Fail> {
    let rows = [
        "",
        "# nothing",
        "post { } main(u) { } attr a const;",
        "post { } post { }",
        "attr key min = -0;",
        "aggregate A(u) = count e; aggregate B(u) = sum e.x where e.key = 1;",
        "action A(u) on e { a <- true; } action B(u) on e { a <- 1; } on e { a <- 2; }",
        "routine R(u, a, b) { if a { } if b { } else { let c = a; } }",
        "post { remove when not true; }",
        "post { spawn when true { } }",
        "post { x = 1; spawn when a = 1 { x = 2; y = 3; } remove when true; }",
        "attr a top = 1; action A(u) on e where within(x, y, u.r + 1) and e.x = 1 { a <- 1 by 2; }",
        "aggregate A(u) = nearest e(x, y) where e.x = 1 and within(x, x, 0) else -1;",
        "main(u) { let x = random(99999); perform x(u, x, x(u)); }",
    ];
    for text in rows {
        assert!(rt; is_read(&rt, rt.alloc(), text)?, "{text:?}");
    }
    Ok(())
}
