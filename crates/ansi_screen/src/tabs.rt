//! Where tabs stop.
ghost use Rattle.std.specs.Prelude.{◌≡◌, ◌≤◌, length};
ghost use Rattle.ansi_screen.specs.Display.{stops};
ghost use Rattle.ansi_screen.specs.Moves.{before_stop, stop_before};

/// How far apart the first stops are.
const STEP: usize = 8;

/// A stop in each eighth column.
pub(crate) fn reset_stops(tabs: &mut [bool])
    ensures { tabs.new ≡ stops (length tabs.old) }
{
    for (column, stop) in tabs.iter_mut().enumerate() {
        *stop = column % STEP == 0;
    }
}

/// How many columns come before the first stop.
pub(crate) fn columns_before_stop(tabs: &[bool]) -> usize
    ensures place { result ≡ before_stop tabs.now }
    ensures within { result ≤ length tabs.now }
{
    for (column, stop) in tabs.iter().enumerate() {
        if *stop {
            return column;
        }
    }
    tabs.len()
}

/// The last stop before the column; the first column, where there is none.
pub(crate) fn stop_before(tabs: &[bool], column: usize) -> usize
    requires { column ≤ length tabs.now }
    ensures { result ≡ stop_before column tabs.now }
{
    let mut last = 0;
    for before in 0..column {
        if tabs[before] {
            last = before;
        }
    }
    last
}
