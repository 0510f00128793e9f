// Pairings of coordinates, as trees.
use sig_base::List;

/// A pairing of two lists of coordinates: an entry for each of the first list, in its order.
#[cycle(pair_tree)]
#[derive(Drop)]
pub struct PairTree {
    pub entries: List<Entry>,
}

/// The place of a coordinate's partner in the second list, and the pairing of its arguments with the partner's.
#[cycle(pair_tree)]
#[derive(Drop)]
pub struct Entry {
    pub place: u32,
    pub args: PairTree,
}
