// A catalogue. The type stands alone in its file, since the definitions that speak of it cannot be imported where it is declared.
use tree::Index;

// A plan, a capacity and a tree of clips in its table; or nothing, in a void catalogue, from a start that was not fit.
#[derive(Drop)]
pub struct Catalogue {
    pub index: Option<Index>,
}
