// What is promised of every tiling.
ghost use Rattle.plans.specs.Words.{WordsTell};
ghost use Rattle.plans.specs.Known.{PathKnown};
ghost use Rattle.plans.specs.Laws.{LawfulRises, WaitsForLower, LaidOutOpens};

// Bit t of a tile's wait word tells whether it waits for t, and no bit from k on is set.
pub fn words_tell()
    ensures { WordsTell }
{}

// A lawful tile table rises along every precedence, so a tile is only waited for by higher tiles.
pub fn lawful_rises()
    ensures rises { LawfulRises }
    ensures lower { WaitsForLower }
{}

// Opening accepts what laying out makes of a lawful tile table.
pub fn laid_out_opens()
    ensures { LaidOutOpens }
{}

// The path of three rows, laid out.
pub fn path_known()
    ensures { PathKnown }
{}
