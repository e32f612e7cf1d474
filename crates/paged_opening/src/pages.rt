// Rows may begin with the pages that recovery gives.
ghost use Rattle.recovery.specs.Opened.{IsWhole};
ghost use Rattle.session_state.specs.row_opening.Opened.{ArePages};

use recovery::Recovered;

/// Rows may begin with these pages.
pub(crate) fn are_pages(recovered: &Recovered)
    requires { IsWhole recovered.now }
    ensures { ArePages recovered.now.pages.items recovered.now.master.floor }
{}
