//! Right sides that have a form, and are read by it, and some that have none.

use crate::equal::assert_equal;
use crate::expressions::{binary, leaf, operation};
use crate::sample::{Parts, make_parts};
use sgl_evaluate::{RightForms, Rights};
use sgl_typed::{Attr, TExpr, TTest};
use sgl_values::{BinOp, CmpOp, Memory, Num};
use std::alloc::Global;
use std::test::Fail;

// The forms of one right side, for two arguments of which the first is written as a number.
fn forms_of(right: TExpr) -> Option<RightForms> {
    let args = [TExpr::Number(Num::whole(7)), TExpr::Unit(Attr::Key)];
    let tests = [TTest::Compare {
        attr: Attr::Const(0),
        op: CmpOp::Le,
        right,
    }];
    RightForms::of(&args, &tests)
}

// An attribute and what it is shifted by.
fn shifted(alloc: Global, op: BinOp, by: TExpr) -> Result<TExpr, Memory> {
    binary(alloc, op, TExpr::Unit(Attr::Const(1)), by)
}

// Right sides that have a form.
fn formed(alloc: Global, number: u32) -> Result<TExpr, Memory> {
    match number {
        0 => Ok(TExpr::Number(Num::whole(5))),
        1 => Ok(TExpr::Unit(Attr::Key)),
        2 => Ok(TExpr::Unit(Attr::Const(1))),
        3 => Ok(TExpr::Slot(0)),
        4 => shifted(alloc, BinOp::Sub, TExpr::Slot(0)),
        5 => shifted(alloc, BinOp::Add, TExpr::Number(Num::whole(20))),
        _ => shifted(alloc, BinOp::Mul, TExpr::Number(Num::whole(2))),
    }
}

// The lanes for whose units a right side is read by its form.
fn lanes_read(parts: &Parts, right: TExpr) -> u64 {
    let forms = forms_of(right);
    let sample = parts.sample();
    if !sample.is_whole() {
        return 0;
    }
    let mut rights = Rights::zero();
    let mut read = 0;
    for lane in 0..64_u32 {
        let is_read = match &forms {
            None => false,
            Some(forms) => forms.read(&sample.frame_at(lane), &mut rights),
        };
        if is_read {
            read |= 1 << lane;
        }
    }
    read
}

#[test]
fn right_sides_are_read_by_their_forms(rt: HostRuntime) -> Result<(), Fail> {
    let alloc = rt.alloc();
    let parts = make_parts(alloc)?;
    for number in 0..7 {
        let right = formed(alloc, number)?;
        assert_equal(
            &rt,
            &(number, lanes_read(&parts, right)),
            &(number, u64::MAX),
        );
    }
    Ok(())
}

#[test]
fn other_leaves_have_no_form(rt: HostRuntime) {
    for number in [2, 5, 6, 8, 9] {
        assert!(rt; forms_of(leaf(number)).is_none(), "leaf {number}");
    }
}

#[test]
fn other_operations_have_no_form(rt: HostRuntime) -> Result<(), Fail> {
    let alloc = rt.alloc();
    for number in 0..6 {
        let right = operation(alloc, number)?;
        assert!(rt; forms_of(right).is_none(), "operation {number}");
    }
    let by_slot = shifted(alloc, BinOp::Add, TExpr::Slot(1))?;
    assert!(rt; forms_of(by_slot).is_none());
    Ok(())
}
