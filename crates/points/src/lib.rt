// The order of points, for every 'directly precedes', every state and every way to find a row's new value.
#![tactic(auto)]

ghost use Rattle.points.specs.Laws.{EachAtItsTurn, AnyState};
ghost use Rattle.points.specs.Laws.{EachRowPlain, PointsCounted};
ghost use Rattle.points.specs.Laws.{AcceptsExactly, OneIsReady, WaitedForByHigher};
ghost use Rattle.points.specs.Laws.{PointsAreSweeps, AllDone, PartsAreRows};
ghost use Rattle.points.specs.Laws.{WaitsTold, LawfulTold};

// Whatever the calls, each point is updated at its turn.
pub fn each_at_its_turn()
    ensures { EachAtItsTurn }
{}

// What calls make of any state is what those points make of it.
pub fn any_state<K>()
    ensures { AnyState K }
{}

// After any list of calls each row holds its plain value for the sweeps that the done tiles have carried it through.
pub fn each_row_plain<K>()
    ensures { EachRowPlain K }
{}

// Which calls are accepted, and that until all tiles are done one is ready.
pub fn calls_stand()
    ensures accepted { AcceptsExactly }
    ensures ready { OneIsReady }
    ensures higher { WaitedForByHigher }
{}

// After any list of calls on any state the updated points are those of the done tiles.
pub fn points_counted<K>()
    ensures { PointsCounted K }
{}

// How many points there are, and what has been carried when all tiles are done.
pub fn points_stand()
    ensures sweeps { PointsAreSweeps }
    ensures whole { AllDone }
{}

// The schedule's parts are the tiles' rows of a sweep.
pub fn parts_are_rows()
    ensures { PartsAreRows }
{}

// The executable tests of waiting and of lawfulness tell what they name.
pub fn tests_tell()
    ensures waits { WaitsTold }
    ensures lawful { LawfulTold }
{}
