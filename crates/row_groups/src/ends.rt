//! Where the rows of a group with values between two bounds begin and end, told by one number a row.
ghost use Rattle.std.specs.Prelude.{◌≡◌, List, ℤ, pos, negsuc, ◌*◌, ◌+ℤ◌, ◌-ℤ◌, ◌≤ℤ◌, ◌<◌, ◌≤◌, int_le, int_lt, All, length, map, IfOk};
ghost use Rattle.row_groups.specs.Ends.{AreEnds, IsBetween, IsEnd, IsScale, place_in, place_of};
ghost use Rattle.row_groups.specs.Ranked.{is_before, is_through, AreInOrder};
ghost use Rattle.row_groups.specs.declared.ranked.Ranked.{Ranked as ARanked};

use crate::ranked::Ranked;
use rank_table::RankTable;
use sgl_values::{Memory, ROWS_MAX};
use std::alloc::Global;

/// How a group and a value make one number: each group is as wide as all values lie apart, and two more.
#[derive(Clone, Copy, Debug)]
pub(crate) struct Scale {
    pub(crate) least: i64,
    pub(crate) greatest: i64,
    pub(crate) width: u64,
}

impl Scale {
    // The number of a group and a value, which may be one off those that are there.
    fn place(&self, group: u32, value: i64) -> i64
        requires scale { IsScale self.now }
        requires group { group ≤ ROWS_MAX }
        requires low { (self.now.least -ℤ pos 1) ≤ℤ value }
        requires high { value ≤ℤ (self.now.greatest +ℤ pos 1) }
        ensures { result ≡ place_of self.now group value }
    {
        self.base(group) + self.above(value)
    }

    // The number of a group and the least value.
    fn base(&self, group: u32) -> i64
        requires scale { IsScale self.now }
        requires group { group ≤ ROWS_MAX }
        ensures value { result ≡ pos (group * self.now.width) }
        ensures few { group * self.now.width ≤ 131072000000131072 }
    {
        (u64::from(group) * self.width) as i64
    }

    // The value nearest to a bound that is at most one off; as many of the values are below it.
    fn low_of(&self, low: i64) -> i64
        requires { IsScale self.now }
        ensures low { self.now.least ≤ℤ result }
        ensures high { result ≤ℤ (self.now.greatest +ℤ pos 1) }
        ensures same { (value : ℤ) → self.now.least ≤ℤ value → value ≤ℤ self.now.greatest → int_lt value result ≡ int_lt value low }
    {
        if low < self.least {
            self.least
        } else if low > self.greatest {
            self.greatest + 1
        } else {
            low
        }
    }

    // And as many are up to this one.
    fn high_of(&self, high: i64) -> i64
        requires { IsScale self.now }
        ensures low { (self.now.least -ℤ pos 1) ≤ℤ result }
        ensures high { result ≤ℤ self.now.greatest }
        ensures same { (value : ℤ) → self.now.least ≤ℤ value → value ≤ℤ self.now.greatest → int_le value result ≡ int_le value high }
    {
        if high > self.greatest {
            self.greatest
        } else if high < self.least {
            self.least - 1
        } else {
            high
        }
    }

    // How far a value lies above the least one.
    fn above(&self, value: i64) -> i64
        requires scale { IsScale self.now }
        requires low { (self.now.least -ℤ pos 1) ≤ℤ value }
        requires high { value ≤ℤ (self.now.greatest +ℤ pos 1) }
        ensures { result ≡ value -ℤ self.now.least }
    {
        value - self.least
    }
}

/// The numbers of rows by group and value.
#[derive(Debug, Drop)]
pub(crate) struct Ends {
    pub(crate) scale: Scale,
    pub(crate) places: RankTable,
}

impl Ends {
    /// How many rows stand before those of a group that have at least this value.
    pub(crate) fn before(&self, group: u32, low: i64) -> u32
        requires { IsScale self.now.scale }
        ensures { (all : List ARanked) → AreInOrder all → AreEnds self.now all → IsEnd (is_before group low) all result }
    {
        let low = self.scale.low_of(low);
        self.places
            .below(self.scale.place(group.min(ROWS_MAX), low))
    }

    /// How many rows stand before those of a group that have a value above this one.
    pub(crate) fn through(&self, group: u32, high: i64) -> u32
        requires { IsScale self.now.scale }
        ensures { (all : List ARanked) → AreInOrder all → AreEnds self.now all → IsEnd (is_through group high) all result }
    {
        let high = self.scale.high_of(high);
        self.places
            .through(self.scale.place(group.min(ROWS_MAX), high))
    }
}

/// The scale of the values of these rows.
pub(crate) fn scale_of(all: &[Ranked]) -> Scale
    ensures scale { IsScale result }
    ensures within { All (IsBetween result) all.now }
{
    let mut least = first_value(all);
    let mut greatest = least;
    for ranked in all {
        least = least.min(ranked.value.get());
        greatest = greatest.max(ranked.value.get());
    }
    Scale {
        least,
        greatest,
        width: greatest.abs_diff(least) + 2,
    }
}

fn first_value(all: &[Ranked]) -> i64
    ensures low { negsuc 999999999999 ≤ℤ result }
    ensures high { result ≤ℤ pos 1000000000000 }
{
    match all.first() {
        None => 0,
        Some(ranked) => ranked.value.get(),
    }
}

/// The number of each row.
pub(crate) fn places_of(alloc: Global, scale: &Scale, all: &[Ranked]) -> Result<Vec<i64>, Memory>
    requires scale { IsScale scale.now }
    requires groups { All (λ ranked. ranked.group < ROWS_MAX) all.now }
    requires within { All (IsBetween scale.now) all.now }
    ensures { IfOk result (λ places. places.items ≡ map (place_in scale.now) all.now) }
{
    let mut places = Vec::with_capacity(alloc, all.len())?;
    for ranked in all {
        places.push(scale.place(ranked.group, ranked.value.get()))?;
    }
    Ok(places)
}
