// The limits of a store by name, and the length and the columns of each lent part. specs/Limits.antt has the
// same; a larger circle changes these two files, and the limit of parents in `ident`.
//
// The tables are columns of cells in lent parts, their lists run by number, and an absent number is 0, with 1 added to the others: a
// store has no heap, and its layout is docs/STORE.md's.

// Named ids, parents in any record, child entries, nullifiers, pending records, cached pairs.
pub const NAME_LIMIT: usize = 8192;

pub const PARENT_LIMIT: usize = 16;

pub const CHILD_LIMIT: usize = 65536;

pub const NULL_LIMIT: usize = 16384;

pub const PENDING_LIMIT: usize = 64;

pub const PAIR_LIMIT: usize = 16384;
// Requests for one parent, and the greatest curvature with 65,536 added.
pub const REQUEST_LIMIT: usize = 3;

pub const CURVATURE_TOP: usize = 131072;

// The cells of head.
pub const NAMES: usize = 0;

pub const ENTRIES: usize = 1;

pub const SPENT: usize = 2;

pub const PAIRS: usize = 3;

pub const WAITING: usize = 4;

pub const ACCEPTED: usize = 5;

pub const MARK: usize = 6;

// Where the columns of keys and rests begin.
pub const NAMES_AT: usize = 0;

pub const NULLS_AT: usize = NAMES_AT + NAME_LIMIT;

pub const WAIT_NULLS_AT: usize = NULLS_AT + NULL_LIMIT;

// Where the columns of nodes begin.
pub const PARENTS_AT: usize = 0;

pub const COUNTS_AT: usize = PARENTS_AT + NAME_LIMIT * PARENT_LIMIT;

pub const DEPTHS_AT: usize = COUNTS_AT + NAME_LIMIT;

pub const REQUESTS_AT: usize = DEPTHS_AT + NAME_LIMIT;

pub const ACCEPTED_AT: usize = REQUESTS_AT + NAME_LIMIT;

pub const CHILDREN_AT: usize = ACCEPTED_AT + NAME_LIMIT;

pub const PARTNERS_AT: usize = CHILDREN_AT + CHILD_LIMIT;

pub const WAIT_NAMES_AT: usize = PARTNERS_AT + PAIR_LIMIT;

pub const WAIT_COUNTS_AT: usize = WAIT_NAMES_AT + PENDING_LIMIT;

pub const WAIT_PARENTS_AT: usize = WAIT_COUNTS_AT + PENDING_LIMIT;

pub const WAIT_MISSING_AT: usize = WAIT_PARENTS_AT + PENDING_LIMIT * PARENT_LIMIT;

pub const WAIT_ASKED_AT: usize = WAIT_MISSING_AT + PENDING_LIMIT;

// Where the columns of links begin.
pub const PLACES_AT: usize = 0;

pub const LASTS_AT: usize = PLACES_AT + NAME_LIMIT;

pub const LAST_PAIRS_AT: usize = LASTS_AT + NAME_LIMIT;

pub const PREVIOUS_AT: usize = LAST_PAIRS_AT + NAME_LIMIT;

pub const PREVIOUS_PAIRS_AT: usize = PREVIOUS_AT + CHILD_LIMIT;

pub const CURVATURES_AT: usize = PREVIOUS_PAIRS_AT + PAIR_LIMIT;

// How many cells each part has.
pub const HEAD_LENGTH: usize = 8;

pub const KEYS_LENGTH: usize = WAIT_NULLS_AT + PENDING_LIMIT;

pub const RESTS_LENGTH: usize = KEYS_LENGTH * 28;

pub const NODES_LENGTH: usize = WAIT_ASKED_AT + PENDING_LIMIT;

pub const LINKS_LENGTH: usize = CURVATURES_AT + PAIR_LIMIT;

pub const NONCES_LENGTH: usize = NAME_LIMIT;

pub const TIPS_LENGTH: usize = NAME_LIMIT / 64;
