//! Laws of runs of valid outlines: steps of calls as pictures see them, hindsight, interference, upkeep, and soundness. Each
//! function is empty, or only cites laws: what it ensures is the law.
ghost use Rattle.plank_sound.specs.SeenSteps.{OwnStepsAreSeen, OthersStepsAreSeen};
ghost use Rattle.plank_sound.specs.Soundness.{HindsightIsTrue, InterferenceIsKept, UpkeepIsSilent, ValidOutlinesAreLinearizable, ValidOutlinesReadNoNull};

use plank_account::laws::justified_runs_law;
use plank_sem::laws::ghost_runs_law;

/// Steps of calls, in a world where keeps and orders hold and the claims of now are true: a step of a
/// pending call is an own step of the point at which it stands, between the pictures that the worlds
/// before and after show to the call; to a call of another thread a step that writes is an effect of its
/// site, or shows the same picture.
pub fn seen_steps_law()
    ensures own { OwnStepsAreSeen }
    ensures others { OthersStepsAreSeen }
{}

/// Hindsight: what was true once of a pending call, together with what lasts and what is true now, tells
/// of what was true at another of its moments.
pub fn hindsight_law()
    ensures { HindsightIsTrue }
{}

/// Interference. Where each claim of an outline is justified, and no obligation of its program fails, in the
/// newest world of every run all shared nodes meet every keep, pointers their order, and each claim is true
/// of every call that stands where it is claimed, upkeep or not.
pub fn interference_law()
    ensures { InterferenceIsKept }
{}

/// A step of an upkeep tells nothing, and turns no key.
pub fn upkeep_law()
    ensures { UpkeepIsSilent }
{}

/// Soundness. Where each claim of an outline is justified, and no obligation of its program fails, every
/// run of any number of threads has a history that is linearizable to a set, and no run comes to a read or
/// a write of a field of null.
pub fn sound_outlines_law()
    ensures linearizable { ValidOutlinesAreLinearizable }
    ensures reads { ValidOutlinesReadNoNull }
{
    justified_runs_law();
    ghost_runs_law();
}
