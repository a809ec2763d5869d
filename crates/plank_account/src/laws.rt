//! The order of calls, as laws: from justified steps to linearizable histories. Each function only cites laws: what it ensures is
//! the law.
ghost use Rattle.plank_account.specs.Accounts.{AccountsAreLinearizable};
ghost use Rattle.plank_account.specs.Justified.{JustifiedRunsAreLinearizable};

use plank_hist::laws::trace_law;
use plank_sem::laws::ghost_runs_law;

/// A history that has an account is linearizable to a set.
///
/// A call that changes the set is listed at its change, with the answer true. An answered call that
/// changed nothing is listed at a moment between its ends at which its key was as its answer says.
/// Other pending calls are left out.
pub fn accounts_law()
    ensures { AccountsAreLinearizable }
{
    trace_law();
}

/// Where the set starts empty, and each step of each run is justified in what it changes and in what it
/// answers, every run of any number of threads has a history that is linearizable to a set.
///
/// Of an upkeep nothing is asked but that it changes no key: it answers nothing.
pub fn justified_runs_law()
    ensures { JustifiedRunsAreLinearizable }
{
    accounts_law();
    ghost_runs_law();
}
