//! The squared distance of two points, exact, and whether it lies in a circle.
ghost use Rattle.std.specs.Prelude.{◌≡◌, ◌≤◌, pos, ◌≤ℤ◌, ◌+ℤ◌, ◌-ℤ◌, unsigned_abs};
ghost use Rattle.sgl_values.specs.Distance.{square as square_of, squared_distance as squared_distance_of, is_in_circle as is_in_circle_of};

use crate::number::Num;

/// The square of the distance of the points (x, y) and (a, b), from 0 to 8 * 10^24.
pub fn squared_distance(x: Num, y: Num, a: Num, b: Num) -> i128
    ensures { result ≡ squared_distance_of x y a b }
{
    joined(squared_gap(x, a), squared_gap(y, b))
}

/// Whether a point at this squared distance from the centre lies in the circle of this radius, its edge included. None
/// lies in one whose radius is below 0.
pub fn is_in_circle(radius: Num, distance: i128) -> bool
    ensures { result ≡ is_in_circle_of radius distance }
{
    radius.get() >= 0 && distance <= square(radius.get())
}

/// The square of what two numbers differ by.
fn squared_gap(from: Num, to: Num) -> i128
    ensures value { result ≡ square_of (to -ℤ from) }
    ensures low { pos 0 ≤ℤ result }
    ensures high { result ≤ℤ pos 4000000000000000000000000 }
{
    square(to.get() - from.get())
}

/// The sum of two squares.
fn joined(a: i128, b: i128) -> i128
    requires low { (pos 0 ≤ℤ a) × (pos 0 ≤ℤ b) }
    requires high { (a ≤ℤ pos 4000000000000000000000000) × (b ≤ℤ pos 4000000000000000000000000) }
    ensures { result ≡ a +ℤ b }
{
    a + b
}

/// A number of at most 2 * 10^12 in size times itself.
fn square(z: i64) -> i128
    requires { unsigned_abs z ≤ 2000000000000 }
    ensures value { result ≡ square_of z }
    ensures low { pos 0 ≤ℤ result }
    ensures high { result ≤ℤ pos 4000000000000000000000000 }
{
    let wide = i128::from(z);
    wide * wide
}
