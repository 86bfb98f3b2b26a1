// How a fault is told.

// Where a fault lies: in the bytes, in a path, or in a list of roots.
#[derive(Clone, Copy, Debug, PartialEq, Eq)]
pub enum Layer {
    Reader,
    Path,
    Roots,
}

// A fault by its number in the rule book, its layer, and the place of the byte that it is about.
#[derive(Clone, Copy, Debug, PartialEq, Eq)]
pub struct Report {
    pub number: u8,
    pub layer: Layer,
    pub place: usize,
}
