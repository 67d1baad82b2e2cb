// What ties the rows of a system to the order of points.
ghost use Rattle.runs.specs.Instances.{RowsAreLocal, PlainIsPlain};

// A row's new value depends on the values of the rows linked to it alone, for every arithmetic.
pub fn rows_are_local<C, V>()
    ensures local { RowsAreLocal C V }
    ensures plain { PlainIsPlain C V }
{}
