//! What a scan asks for.
ghost use Rattle.std.specs.Prelude.{◌≡◌};

use crate::texts::Text;
use std::alloc::AllocError;

/// Where a scan begins.
pub enum Start {
    /// At the first key.
    Any,
    /// At this key, if it is there, else at the next one.
    At(Text),
    /// At the first key above this one.
    After(Text),
}

impl Drop for Start {
    fn drop(self) {
        match self {
            Start::Any => {}
            Start::At(key) | Start::After(key) => drop(key),
        }
    }
}

/// A scan: the keys that begin with the prefix, from the start on, in the order of their bytes, and of these the first
/// `limit` where there is one (Replicache, `ScanOptions`).
pub struct Scan {
    /// What each key begins with; every key begins with the empty text.
    pub prefix: Text,
    /// From where on.
    pub start: Start,
    /// How many pairs at most.
    pub limit: Option<u64>,
}

impl Drop for Scan {
    fn drop(self) {
        let Scan {
            prefix,
            start,
            limit: _,
        } = self;
        drop(prefix);
        drop(start);
    }
}

impl Clone for Start {
    ghost is_clone = { λ start copy. copy ≡ start };

    fn clone(&self) -> Result<Start, AllocError> {
        match self {
            Start::Any => Ok(Start::Any),
            Start::At(key) => Ok(Start::At(key.clone()?)),
            Start::After(key) => Ok(Start::After(key.clone()?)),
        }
    }
}

impl Clone for Scan {
    ghost is_clone = { λ scan copy. copy ≡ scan };

    fn clone(&self) -> Result<Scan, AllocError> {
        Ok(Scan {
            prefix: self.prefix.clone()?,
            start: self.start.clone()?,
            limit: self.limit,
        })
    }
}

impl Scan {
    ghost use Rattle.group_history.specs.Scans.{is_in};

    /// Whether the scan has a pair of this key, before its limit is looked at.
    pub fn has(&self, key: &Text) -> bool
        ensures { result ≡ is_in self.now key.now }
    {
        key.as_str()
            .as_bytes()
            .starts_with(self.prefix.as_str().as_bytes())
            && match &self.start {
                Start::Any => true,
                Start::At(start) => key.cmp(start).is_ge(),
                Start::After(start) => key.cmp(start).is_gt(),
            }
    }
}
