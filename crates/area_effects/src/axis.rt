//! The numbers of points along one axis.
ghost use Rattle.std.specs.Prelude.{◌≡◌, ◌≤◌, length};
ghost use Rattle.area_effects.specs.Ranks.{IsAxis, IsRanked, count_below, count_through};

/// The numbers of all points along one axis, in rising order. The rank of a number is how many of
/// them are below it.
#[derive(Debug, Drop)]
pub(crate) struct Axis {
    pub(crate) numbers: Vec<i64>,
}

impl Axis {
    /// The axis of these numbers.
    pub(crate) fn of(mut numbers: Vec<i64>) -> Axis
        ensures { IsAxis numbers.items result.numbers.items }
    {
        numbers.sort_unstable();
        Axis { numbers }
    }

    /// How many numbers are below this one; found by halving.
    pub(crate) fn below(&self, number: i64) -> u32
        requires { IsRanked self.now.numbers.items }
        ensures { result ≡ count_below self.now.numbers.items number }
    {
        self.numbers.partition_point(|other| *other < number) as u32
    }

    /// How many numbers are not above this one; found by halving.
    pub(crate) fn through(&self, number: i64) -> u32
        requires { IsRanked self.now.numbers.items }
        ensures { result ≡ count_through self.now.numbers.items number }
    {
        self.numbers.partition_point(|other| *other <= number) as u32
    }
}
