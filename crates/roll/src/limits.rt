// How many texts a roll may have, and how long each may be.

#[derive(Clone, Copy, PartialEq, Eq, Debug)]
pub struct Limits {
    pub least: usize,
    pub most: usize,
    pub longest: usize,
}

/// A roll of incoming addresses.
pub const INCOMING: Limits = Limits {
    least: 0,
    most: 512,
    longest: 998,
};
