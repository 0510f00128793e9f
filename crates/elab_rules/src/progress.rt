// How far elaboration has come.
use elab_env::NameTable;
use elab_types::Places;

/// How far elaboration has come: the names so far, the weight of all that was described, the first parts of
/// the external names' paths, and what these names weigh.
#[derive(Drop)]
pub struct Progress {
    pub table: NameTable,
    pub weight: u64,
    pub firsts: Places,
    pub external_weight: u64,
}
