//! The nearest of xterm's 256 colours.
ghost use Rattle.std.specs.Prelude.{◌≡◌, ◌≤◌, ◌<◌, ℕ};
ghost use Rattle.ansi_html.specs.Contrast.{rgb};
ghost use Rattle.ansi_html.specs.Nearest.{square_apart, distance, step_of, cube_number, nearer, nearest, fixed_at};

use crate::contrast::Rgb;
use crate::palette::indexed;

/// The number of the first grey, and how many there are.
const FIRST_GREY: u8 = 232;

const GREYS: u8 = 24;

/// The square of how far two bytes are apart.
fn square_apart(one: u8, other: u8) -> u32
    ensures value { result ≡ square_apart one other }
    ensures most { result ≤ 65025 }
{
    let apart = u32::from(if one < other {
        other - one
    } else {
        one - other
    });
    apart * apart
}

/// The sum of these for red, green and blue.
fn distance(one: Rgb, other: Rgb) -> u32
    ensures { result ≡ distance one other }
{
    square_apart(one.red, other.red)
        + (square_apart(one.green, other.green) + square_apart(one.blue, other.blue))
}

/// The step of the cube that is nearest to a byte, the lower one of two: the steps are 0, 95, 135, 175, 215
/// and 255.
fn step_of(value: u8) -> u8
    ensures value { result ≡ step_of value }
    ensures most { result < 6 }
{
    if value < 48 {
        0
    } else if value < 116 {
        1
    } else {
        (value - 36) / 40
    }
}

/// The number of the nearest colour of the cube.
fn cube_number(color: Rgb) -> u8
    ensures { result ≡ cube_number color }
{
    16 + (36 * step_of(color.red) + (6 * step_of(color.green) + step_of(color.blue)))
}

/// Whichever number has the nearer colour, the first one of two.
fn nearer(color: Rgb, first: u8, second: u8) -> u8
    ensures { result ≡ nearer color first second }
{
    if distance(color, indexed(second).fixed) < distance(color, indexed(first).fixed) {
        second
    } else {
        first
    }
}

impl Rgb {
    /// The number of the nearest of xterm's colours 16 to 255, the cube and the greys, which are the same
    /// on each page: the one of the least sum of squared differences of the three parts, and of several the
    /// one of the lowest number.
    pub fn nearest(self) -> u8
        ensures value { result ≡ nearest self }
        ensures least { (n : ℕ) → 16 ≤ n → n < 256 → distance self (fixed_at result) ≤ distance self (fixed_at n) }
        ensures first { (n : ℕ) → 16 ≤ n → n < result → distance self (fixed_at result) < distance self (fixed_at n) }
    {
        let mut best = cube_number(self);
        for grey in 0..GREYS {
            best = nearer(self, best, FIRST_GREY + grey);
        }
        best
    }
}
