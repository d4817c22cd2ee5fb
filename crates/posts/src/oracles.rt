// What posts ask, besides the papers.

// The oracles that all posts go by: which editions are admitted, and which post leads a view.
#[derive(Drop)]
pub struct Oracles<C, D> {
    pub check: C,
    pub draw: D,
}
