// That numbers fit their words, whatever other seats do: what a seat has seen is tame.
ghost use Rattle.session_state.specs.Numbers.{AreClocksLow, AreNumbered, HaveRoom};

use btree_descent::Rows;

/// The next number of each worker that is open fits. The call does nothing.
pub fn next_fits<R: Rows>(rows: &R, seat: &R::Seat)
    requires fits { R.fits rows.now seat.now }
    requires numbered { AreNumbered (R.view seat.now).given }
    ensures { HaveRoom (R.view seat.now) }
{
    row_numbers::every_view();
    row_numbers::every_fit();
    rows.versions(seat);
}

/// No clock is above the base and what sessions may count from 2^62 on. The call does nothing.
pub fn clocks_low<R: Rows>(rows: &R, seat: &R::Seat)
    requires fits { R.fits rows.now seat.now }
    requires numbered { AreNumbered (R.view seat.now).given }
    ensures { AreClocksLow (R.view seat.now) }
{
    row_numbers::every_view();
    row_numbers::every_clock();
    rows.versions(seat);
}
