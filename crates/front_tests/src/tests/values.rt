//! Tests of numbers, amounts, faults and lists.

use crate::tests::equal::assert_equal;
use sgl_values::{
    Amount, ArithFault, Boxed, Fault, ItemFault, List, Memory, Num, PRIORITY_MAX, Place, Text,
    VALUE_MAX, add, amounts_have_a_greatest, bounded, cells_ignore_order, div,
    item_faults_have_a_least, mul, rem, sub,
};
use std::alloc::Global;
use std::test::Fail;
use test_cases::{number, small};

// The value of the number that is made of this one, or none.
fn kept(value: i64) -> Option<i64> {
    match Num::new(value) {
        Some(number) => Some(number.get()),
        None => None,
    }
}

#[test]
fn the_range_ends_at_ten_to_the_twelfth(rt: HostRuntime) {
    let inside = [kept(1_000_000_000_000), kept(-1_000_000_000_000)];
    let outside = [kept(1_000_000_000_001), kept(-1_000_000_000_001)];
    let wanted = [Some(1_000_000_000_000), Some(-1_000_000_000_000)];
    assert_equal(&rt, &(inside, outside), &(wanted, [None, None]));
}

#[test]
fn zero_and_whole_numbers_have_their_values(rt: HostRuntime) {
    let found = [Num::zero().get(), Num::whole(4_294_967_295).get()];
    assert_equal(&rt, &found, &[0, 4_294_967_295]);
}

#[test]
fn division_truncates_toward_zero(rt: HostRuntime) {
    let rows = [
        (7, 2, 3, 1),
        (-7, 2, -3, -1),
        (7, -2, -3, 1),
        (-7, -2, 3, -1),
        (0, 5, 0, 0),
    ];
    for (a, b, quotient, remainder) in rows {
        let found = (div(small(a), small(b)), rem(small(a), small(b)));
        assert_equal(&rt, &found, &(Ok(small(quotient)), Ok(small(remainder))));
    }
}

#[test]
fn nothing_is_divided_by_zero(rt: HostRuntime) {
    let one = small(1);
    let found = [div(one, Num::zero()), rem(one, Num::zero())];
    assert_equal(&rt, &found, &[Err(ArithFault::ZeroDivisor); 2]);
}

#[test]
fn a_result_outside_the_range_overflows(rt: HostRuntime) -> Result<(), Fail> {
    let most = number(VALUE_MAX)?;
    let one = small(1);
    let found = [
        add(most, one),
        sub(most.negated(), one),
        mul(most, most),
        bounded(i64::MIN),
    ];
    assert_equal(&rt, &found, &[Err(ArithFault::Overflow); 4]);
    Ok(())
}

#[test]
fn a_result_at_the_end_of_the_range_is_kept(rt: HostRuntime) -> Result<(), Fail> {
    let most = number(VALUE_MAX)?;
    let below = number(VALUE_MAX - 1)?;
    let million = small(1_000_000);
    assert_equal(
        &rt,
        &[sub(most, small(1)), mul(million, million)],
        &[Ok(below), Ok(most)],
    );
    Ok(())
}

// The list of 3 and 5.
fn pair(alloc: Global) -> Result<List<u8>, Memory> {
    let mut list = List::new(alloc);
    list.push(3)?;
    list.push(5)?;
    Ok(list)
}

#[test]
fn a_list_holds_what_it_is_given(rt: HostRuntime) -> Result<(), Fail> {
    let list = pair(rt.alloc())?;
    let found = (list.len(), list.get(1).copied(), list.get(2).copied());
    assert_equal(&rt, &found, &(2, Some(5), None));
    Ok(())
}

#[test]
fn a_list_holds_the_items_of_a_vector(rt: HostRuntime) -> Result<(), Fail> {
    let list = List::from_vec(vec![in rt.alloc(); 1u8, 2]?);
    assert_equal(&rt, &list.len(), &2);
    Ok(())
}

#[test]
fn the_last_of_a_list_is_taken(rt: HostRuntime) -> Result<(), Fail> {
    let mut list = pair(rt.alloc())?;
    assert_equal(&rt, &list.pop(), &Some(5));
    assert_equal(&rt, &list.as_slice(), &[3u8].as_slice());
    Ok(())
}

// Whether a list is the same as its copy, and whether it differs when its last item is taken.
fn compared_copies(alloc: Global) -> Result<(bool, bool), Memory> {
    let mut list = pair(alloc)?;
    let copy = list.clone()?;
    let were_same = copy == list;
    list.pop();
    Ok((were_same, copy != list))
}

#[test]
fn a_copy_of_a_list_stays_as_it_was(rt: HostRuntime) -> Result<(), Fail> {
    assert_equal(&rt, &compared_copies(rt.alloc())?, &(true, true));
    Ok(())
}

#[test]
fn a_copy_of_a_text_has_its_bytes(rt: HostRuntime) -> Result<(), Fail> {
    let text = Text::of(rt.alloc(), "health")?;
    assert_equal(&rt, &text.clone()?.as_str(), &"health");
    Ok(())
}

#[test]
fn boxes_hold_what_they_are_given(rt: HostRuntime) -> Result<(), Fail> {
    let boxed = Boxed::new(rt.alloc(), 7u8)?;
    let copy = boxed.clone()?;
    assert!(rt; copy == boxed);
    assert_equal(&rt, &(*copy.get(), boxed.into_inner()), &(7, 7));
    Ok(())
}

#[test]
fn places_go_by_line_and_then_by_column(rt: HostRuntime) {
    let place = Place { line: 2, col: 1 };
    let found = [
        Place::START < place,
        Place { line: 1, col: 9 } < place,
        place < Place { line: 2, col: 2 },
    ];
    assert_equal(&rt, &found, &[true; 3]);
}

// A fault of an item by its key, line, column and target.
fn item((key, line, col, target, kind): (u32, u32, u32, u32, ArithFault)) -> ItemFault {
    let place = Place { line, col };
    ItemFault {
        key,
        fault: Fault { kind, place },
        target,
    }
}

#[test]
fn faults_of_items_go_by_key_place_target_and_kind(rt: HostRuntime) {
    let rising = [
        (1, 9, 9, 9, ArithFault::ZeroDivisor),
        (2, 1, 8, 9, ArithFault::ZeroDivisor),
        (2, 1, 9, 7, ArithFault::ZeroDivisor),
        (2, 1, 9, 8, ArithFault::Overflow),
        (2, 1, 9, 8, ArithFault::ZeroDivisor),
        (2, 1, 9, 8, ArithFault::Priority),
        (2, 3, 1, 0, ArithFault::Overflow),
    ];
    for (i, lower) in rising.into_iter().enumerate() {
        for (j, upper) in rising.into_iter().enumerate() {
            assert_equal(
                &rt,
                &(i, j, item(lower).cmp(&item(upper))),
                &(i, j, i.cmp(&j)),
            );
        }
    }
}

#[test]
fn laws_of_values_can_be_called() {
    cells_ignore_order();
    item_faults_have_a_least();
    amounts_have_a_greatest();
}

#[test]
fn an_amount_has_a_priority_of_at_most_a_million(rt: HostRuntime) -> Result<(), Fail> {
    let value = small(-4);
    let amount = Amount::new(value, 1_000_000).ok_or("no amount")?;
    assert_equal(
        &rt,
        &(amount.value(), amount.priority()),
        &(value, PRIORITY_MAX),
    );
    assert_equal(&rt, &Amount::new(value, 1_000_001), &None);
    assert_equal(&rt, &Amount::plain(value).priority(), &0);
    Ok(())
}
