//! Tests of words, cells and batches.

ghost use Rattle.std.specs.Prelude.{◌≡◌, length, IfOk};

use crate::tests::equal::assert_equal;
use effect_combine::{
    Added, Batch, Cell, CellOverflow, batches_hold_amounts, batches_take_words, combine_items,
    combined_words_stand, finish, merge, start_word, top_words_tell_the_greatest, word_of,
    words_ignore_order, words_merge,
};
use sgl_values::{Amount, BATCH_CELLS_MAX, Item, List, Memory, Num, Tag};
use std::alloc::Global;
use std::process::Abort;
use std::test::Fail;
use test_cases::{number, small};

const MOST: i64 = 1_000_000_000_000;

fn plain(value: i32) -> Amount {
    Amount::plain(small(value))
}

fn amount(rt: &impl Abort, value: Num, priority: u32) -> Amount {
    Amount::new(value, priority).expect(rt, "out of range")
}

// The words of -1, 0 and 7.
fn three_words(tag: Tag) -> [u64; 3] {
    [
        word_of(tag, plain(-1)),
        word_of(tag, plain(0)),
        word_of(tag, plain(7)),
    ]
}

#[test]
fn words_of_amounts(rt: HostRuntime) {
    let rows = [
        (Tag::Sum, 0, [u64::MAX, 0, 7]),
        (
            Tag::Min,
            u64::MAX,
            [999_999_999_999, 1_000_000_000_000, 1_000_000_000_007],
        ),
        (
            Tag::Max,
            0,
            [1_000_000_000_000, 1_000_000_000_001, 1_000_000_000_008],
        ),
        (
            Tag::Top,
            0,
            [1_000_000_000_000, 1_000_000_000_001, 1_000_000_000_008],
        ),
    ];
    for (tag, start, words) in rows {
        assert_equal(&rt, &(tag, start_word(tag)), &(tag, start));
        assert_equal(&rt, &(tag, three_words(tag)), &(tag, words));
    }
}

#[test]
fn words_of_the_least_amount(rt: HostRuntime) -> Result<(), Fail> {
    let least = Amount::plain(number(MOST)?.negated());
    for (tag, word) in [(Tag::Min, 0), (Tag::Max, 1), (Tag::Top, 1)] {
        assert_equal(&rt, &(tag, word_of(tag, least)), &(tag, word));
    }
    Ok(())
}

#[test]
fn words_of_priorities(rt: HostRuntime) -> Result<(), Fail> {
    let low = amount(&rt, small(-4), 2);
    assert_equal(&rt, &word_of(Tag::Top, low), &5_398_046_511_101);
    let high = amount(&rt, number(MOST)?, 1_000_000);
    assert_equal(&rt, &word_of(Tag::Top, high), &2_199_025_255_552_000_001);
    Ok(())
}

#[test]
fn words_are_merged(rt: HostRuntime) {
    for (tag, a, merged) in [
        (Tag::Sum, u64::MAX, 6),
        (Tag::Min, 3, 3),
        (Tag::Max, 3, 7),
        (Tag::Top, 3, 7),
    ] {
        assert_equal(&rt, &(tag, merge(tag, a, 7)), &(tag, merged));
    }
}

// The word of three amounts.
fn merged_word(tag: Tag, amounts: [i64; 3]) -> Result<u64, Fail> {
    let mut word = start_word(tag);
    for amount in amounts {
        word = merge(tag, word, word_of(tag, Amount::plain(number(amount)?)));
    }
    Ok(word)
}

// What a cell comes to.
fn cell_of(total: i64) -> Result<Num, CellOverflow> {
    Num::new(total).ok_or(CellOverflow { total })
}

#[test]
fn cells_are_sums_and_extremes(rt: HostRuntime) -> Result<(), Fail> {
    // Tag, starting value, amounts, and the total.
    let rows = [
        (Tag::Sum, 0, [MOST, MOST, -MOST], MOST),
        (Tag::Sum, 0, [MOST, MOST, 0], 2 * MOST),
        (Tag::Sum, -MOST, [-MOST, -MOST, 0], -3 * MOST),
        (Tag::Min, 5, [9, 7, 8], 5),
        (Tag::Min, 5, [9, 2, 8], 2),
        (Tag::Min, MOST, [MOST, -MOST, 0], -MOST),
        (Tag::Max, 5, [9, 2, 8], 9),
        (Tag::Max, 5, [1, 2, 3], 5),
        (Tag::Max, -MOST, [-MOST, -MOST, -MOST], -MOST),
    ];
    for (tag, init, amounts, total) in rows {
        let init = number(init)?;
        assert_equal(&rt, &finish(tag, init, start_word(tag)), &Ok(init));
        assert_equal(
            &rt,
            &finish(tag, init, merged_word(tag, amounts)?),
            &cell_of(total),
        );
    }
    Ok(())
}

// An amount for an attribute of a row.
fn effect(row: u32, attr: u32, amount: Amount) -> Item
    ensures { result ≡ Item.Effect row attr amount }
{
    Item::Effect { row, attr, amount }
}

#[test]
fn items_are_combined_row_by_row(rt: HostRuntime) -> Result<(), Fail> {
    let alloc = rt.alloc();
    let tags = List::from_vec(vec![in alloc; Tag::Min, Tag::Max]?);
    let items = [
        effect(1, 0, plain(9)),
        effect(1, 1, plain(9)),
        effect(2, 0, plain(2)),
        effect(2, 1, plain(2)),
    ];
    let combined = combine_items(alloc, 3, &tags, items.as_slice())?;
    let five = small(5);
    for (row, low, high) in [(0, 5, 5), (1, 5, 9), (2, 2, 5)] {
        assert_equal(
            &rt,
            &finish(Tag::Min, five, combined.word(row, 0)),
            &Ok(small(low)),
        );
        assert_equal(
            &rt,
            &finish(Tag::Max, five, combined.word(row, 1)),
            &Ok(small(high)),
        );
    }
    Ok(())
}

#[test]
fn the_greatest_priority_wins_and_then_the_greatest_value(rt: HostRuntime) -> Result<(), Fail> {
    let alloc = rt.alloc();
    let tags = List::from_vec(vec![in alloc; Tag::Top]?);
    let second = amount(&rt, small(-4), 2);
    let items = [
        effect(1, 0, amount(&rt, small(3), 1)),
        effect(1, 0, second),
        effect(2, 0, amount(&rt, small(3), 2)),
        effect(2, 0, second),
        effect(3, 0, amount(&rt, small(3), 5)),
        effect(3, 0, second),
    ];
    let combined = combine_items(alloc, 4, &tags, items.as_slice())?;
    for (row, value) in [(0, 7), (1, -4), (2, 3), (3, 3)] {
        let word = combined.word(row, 0);
        assert_equal(
            &rt,
            &(row, finish(Tag::Top, small(7), word)),
            &(row, Ok(small(value))),
        );
    }
    Ok(())
}

// A batch with 1 for both attributes of 128 rows.
fn full_batch(rt: &impl Abort, alloc: Global) -> Result<Batch, Memory>
    ensures { IfOk result (λ batch. length batch.tags ≡ 2) }
{
    let tags = List::from_vec(vec![in alloc; Tag::Sum, Tag::Min]?);
    let mut batch = Batch::new(alloc, &tags)?;
    assert!(rt; batch.is_empty());
    for row in 0..128 {
        assert_equal(rt, &batch.add(row, 1, plain(1)), &Added::Kept);
        assert_equal(rt, &batch.add(row, 0, plain(1)), &Added::Kept);
    }
    Ok(batch)
}

#[test]
fn a_batch_holds_256_cells(rt: HostRuntime) -> Result<(), Fail> {
    let mut batch = full_batch(&rt, rt.alloc())?;
    assert_equal(&rt, &batch.len(), &BATCH_CELLS_MAX);
    assert_equal(&rt, &batch.add(128, 0, plain(1)), &Added::Full);
    batch.clear();
    assert_equal(&rt, &batch.len(), &0);
    assert_equal(&rt, &batch.add(128, 0, plain(1)), &Added::Kept);
    Ok(())
}

#[test]
fn a_full_batch_takes_more_for_its_cells(rt: HostRuntime) -> Result<(), Fail> {
    let mut batch = full_batch(&rt, rt.alloc())?;
    assert_equal(&rt, &batch.add(128, 0, plain(1)), &Added::Full);
    assert_equal(&rt, &batch.add(7, 0, plain(4)), &Added::Kept);
    let four = word_of(Tag::Min, plain(4));
    assert_equal(&rt, &batch.add_word(7, 1, four), &Added::Kept);
    assert_equal(&rt, &batch.len(), &256);
    for (place, attr, word) in [(14, 0, 5), (15, 1, 1_000_000_000_001)] {
        let cell = Cell { row: 7, attr, word };
        assert_equal(&rt, &batch.cells().get(place).copied(), &Some(cell));
    }
    Ok(())
}

#[test]
fn laws_are_called() {
    words_merge();
    words_ignore_order();
    combined_words_stand();
    batches_take_words();
    batches_hold_amounts();
    top_words_tell_the_greatest();
}
