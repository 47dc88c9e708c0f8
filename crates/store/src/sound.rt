// StoreBad: the check of every part, linear in what is in use. The loops under it have no branch, so that LLVM makes vector
// code of them: every call pays for this check first.
ghost use Rattle.std.specs.Prelude.{◌≡◌, length};
ghost use Rattle.store.specs.Limits.{nodes_length, links_length};
ghost use Rattle.store.specs.Tables.{used};
ghost use Rattle.store.specs.Parts.{store_seen};
ghost use Rattle.store.specs.Sound.{Within, lengths_right, head_right, nodes_columns, links_columns, all_right, sound};

use crate::limits::*;
use crate::parts::View;

// How far each table is in use.
#[derive(Clone, Copy, Debug, PartialEq, Eq)]
pub struct Counts {
    pub names: usize,
    pub entries: usize,
    pub spent: usize,
    pub pairs: usize,
    pub waiting: usize,
    pub accepted: usize,
}

impl Counts {
    // Whether no count exceeds its limit.
    fn right(self) -> bool
        ensures { result ≡ head_right self }
    {
        (self.names <= NAME_LIMIT)
            & (self.entries <= CHILD_LIMIT)
            & (self.spent <= NULL_LIMIT)
            & (self.pairs <= PAIR_LIMIT)
            & (self.waiting <= PENDING_LIMIT)
            & (self.accepted <= NAME_LIMIT)
    }
}

impl View<'_> {
    // How far each table is in use, as the head says.
    pub fn counts(&self) -> Counts
        ensures { result ≡ used (store_seen self.now) }
    {
        Counts {
            names: self.names() as usize,
            entries: self.entries() as usize,
            spent: self.spent() as usize,
            pairs: cells::at(self.head, PAIRS) as usize,
            waiting: cells::at(self.head, WAITING) as usize,
            accepted: cells::at(self.head, ACCEPTED) as usize,
        }
    }

    // Whether each part has its stated length.
    pub fn lengths_right(&self) -> bool
        ensures { result ≡ lengths_right (store_seen self.now) }
    {
        (self.head.len() == HEAD_LENGTH)
            & (self.keys.len() == KEYS_LENGTH)
            & (self.rests.len() == RESTS_LENGTH)
            & (self.nodes.len() == NODES_LENGTH)
            & (self.links.len() == LINKS_LENGTH)
            & (self.nonces.len() == NONCES_LENGTH)
            & (self.tips.len() == TIPS_LENGTH)
    }

    // Whether the store is not bad.
    pub fn is_sound(&self) -> bool
        ensures { result ≡ sound (store_seen self.now) }
    {
        if !self.lengths_right() {
            return false;
        }
        let u = self.counts();
        if !u.right() {
            return false;
        }
        nodes_right(self.nodes, u) & links_right(self.links, u)
    }
}

// Whether the columns of nodes are right: counts and depths up to their limits, names below their count.
fn nodes_right(nodes: &[u16], u: Counts) -> bool
    requires { (length nodes.now ≡ nodes_length) × Within u }
    ensures { result ≡ all_right nodes.now (nodes_columns u) }
{
    let parents = PARENT_LIMIT as u16;
    let names = u.names as u16;
    cells::all_below(nodes, COUNTS_AT, u.names, parents + 1)
        & cells::all_below(nodes, REQUESTS_AT, u.names, REQUEST_LIMIT as u16 + 1)
        & cells::all_below(nodes, WAIT_COUNTS_AT, u.waiting, parents + 1)
        & cells::all_below(nodes, DEPTHS_AT, u.names, NAME_LIMIT as u16 + 2)
        & cells::all_below(nodes, PARENTS_AT, u.names * PARENT_LIMIT, names)
        & cells::all_below(nodes, ACCEPTED_AT, u.accepted, names)
        & cells::all_below(nodes, CHILDREN_AT, u.entries, names)
        & cells::all_below(nodes, PARTNERS_AT, u.pairs, names)
        & cells::all_below(nodes, WAIT_NAMES_AT, u.waiting, names)
        & cells::all_below(nodes, WAIT_PARENTS_AT, u.waiting * PARENT_LIMIT, names)
}

// Whether the columns of links are right: places below their counts, with 1 added, and curvatures in their range.
fn links_right(links: &[u32], u: Counts) -> bool
    requires { (length links.now ≡ links_length) × Within u }
    ensures { result ≡ all_right links.now (links_columns u) }
{
    cells::all_below(links, PLACES_AT, u.names, u.spent as u32 + 1)
        & cells::all_below(links, LASTS_AT, u.names, u.entries as u32 + 1)
        & cells::all_below(links, LAST_PAIRS_AT, u.names, u.pairs as u32 + 1)
        & cells::all_falling(links, PREVIOUS_AT, u.entries)
        & cells::all_falling(links, PREVIOUS_PAIRS_AT, u.pairs)
        & cells::all_below(links, CURVATURES_AT, u.pairs, CURVATURE_TOP as u32 + 1)
}
