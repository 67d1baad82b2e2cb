// What the numbering, remapping and carrying keep: each function's contract is the law that it is named after.
ghost use Rattle.std.specs.Prelude.{◌≡◌, true};
ghost use Rattle.numbering.specs.Laws.{RanksPermute, RanksPass, RowsInOrder, RemappedAccepted, LinksKept, TilesMoved, RowsComeBack, EntriesComeBack};
ghost use Rattle.numbering.specs.Known.{all_right};

// The ranks of the known meshes.
pub fn known_ranks()
    ensures { all_right ≡ true }
{}

// Ranks are a permutation for any bytes whatever, and rows by rank are its inverse.
pub fn ranks_permute()
    ensures { RanksPermute }
{}

// What ordering makes passes the check of ranks.
pub fn ranks_pass()
    ensures { RanksPass }
{}

// Rows stand in the order of their tile vectors, equal vectors by row number.
pub fn rows_in_order()
    ensures { RowsInOrder }
{}

// What remapping makes of an accepted matrix is an accepted matrix.
pub fn remapped_accepted()
    ensures { RemappedAccepted }
{}

// Linked rows stay linked, and no others become so.
pub fn links_kept()
    ensures { LinksKept }
{}

// Each tile moves with its row.
pub fn tiles_moved()
    ensures { TilesMoved }
{}

// Row elements carried there and back, and back and there, are what they were, for every element type.
pub fn rows_come_back<K: Copy>()
    ensures { RowsComeBack K }
{}

// Entry elements carried there and back, and back and there, are what they were, for every element type.
pub fn entries_come_back<K: Copy>()
    ensures { EntriesComeBack K }
{}
