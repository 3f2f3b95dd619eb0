//! What a shortage of desks consists of.

/// Why candidates are left without a desk.
#[derive(Debug, Drop)]
pub struct Shortage {
    /// How many candidates have no desk.
    pub unseated: usize,
    /// The halls that fit any of the candidates, rising.
    pub halls: Vec<usize>,
    /// The candidates that some best plan leaves out, rising.
    pub candidates: Vec<usize>,
}
