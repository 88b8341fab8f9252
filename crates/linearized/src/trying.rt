//! How one try of a change ended. `specs/Trying.antt` says what each end means.

/// How a publishing ended.
#[derive(Clone, Copy, Debug, PartialEq, Eq)]
pub enum Published {
    Won,
    /// Others moved the head first.
    Lost,
}
