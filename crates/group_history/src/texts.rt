//! A text that never changes and is cheap to clone: the key of a map, a client's name, a mutator's name.
//!
//! Contracts see a `Text` as the list of its UTF-8 bytes, so two texts are equal where their bytes are,
//! and they are ordered by their bytes. How a text is kept goes by its length alone: a short one lies in the
//! `Text`, a middling one in one shared block, and a long one is a shared `String`.
ghost use Rattle.std.specs.Prelude.{◌≡◌, ◌≤◌, [], length, Some, IfOk, nat_eq, bytes_eq, string_bytes};
ghost use Rattle.std.specs.Cmp as laws;
ghost use Rattle.std.specs.Cmp.Lexicographic.{slice_cmp, pointwise, texts_ties, texts_po};
ghost use Rattle.std.specs.Cmp.Lexicographic.{nat_list_eq_equiv, nat_list_cmp_total};
ghost use Rattle.std.specs.Ordering.{nat_cmp};
ghost use Rattle.std.proofs.Common.{refl};

mod packed;
mod search_key;

use packed::Packed;
pub use search_key::SearchKey;
use std::alloc::{AllocError, Global};
use std::cmp::Ordering;
use std::fmt;
use std::marker::Model;
use std::sync::{Arc, ArcStr};

/// The longest text, in bytes, that lies in the `Text` itself.
const SHORT: usize = 22;

/// The longest text, in bytes, that is shared as one block.
const MIDDLING: usize = 71;

/// A text: a clone of a short one copies it, a clone of a longer one counts one up and copies no bytes.
pub struct Text {
    kept: Kept,
}

/// How a text is kept, by its length.
enum Kept {
    Short(Packed<SHORT>),
    Middling(Arc<Packed<MIDDLING>>),
    Long(ArcStr),
}

impl Model for Text {
    ghost use Rattle.std.specs.Prelude.{ℕ, List};

    ghost Value = { List ℕ };

    ghost use Rattle.group_history.specs.Inside.Texts.{kept_bytes};

    ghost view = { λ t. kept_bytes t.kept };
}

impl Text {
    /// A copy of `text`.
    pub fn new(alloc: Global, text: &str) -> Result<Text, AllocError>
        ensures { IfOk result (λ t. t ≡ text.now) }
    {
        if text.len() > MIDDLING {
            let long = ArcStr::from_str(alloc, text)?;
            return Ok(Text {
                kept: Kept::Long(long),
            });
        }
        Text::copied(alloc, text)
    }

    /// The text that a `String` holds; the bytes of a long one are not copied.
    pub fn from_string(text: String) -> Result<Text, AllocError>
        ensures { IfOk result (λ t. t ≡ string_bytes text) }
    {
        if text.len() > MIDDLING {
            let long = ArcStr::from_string(text)?;
            return Ok(Text {
                kept: Kept::Long(long),
            });
        }
        Text::copied(*text.allocator(), text.as_str())
    }

    /// A copy of a text that is not long.
    fn copied(alloc: Global, text: &str) -> Result<Text, AllocError>
        requires { length text.now ≤ MIDDLING }
        ensures { IfOk result (λ t. t ≡ text.now) }
    {
        if text.len() <= SHORT {
            return Ok(Text {
                kept: Kept::Short(Packed::new(text)),
            });
        }
        let middling = Arc::new(alloc, Packed::new(text))?;
        Ok(Text {
            kept: Kept::Middling(middling),
        })
    }

    /// The text. Its bytes are where the `Text` keeps them: none is copied.
    #[inline]
    pub fn as_str(&self) -> &str
        ensures { result.now ≡ self.now }
    {
        match &self.kept {
            Kept::Short(short) => short.as_str(),
            Kept::Middling(middling) => middling.as_str(),
            Kept::Long(long) => long.as_str(),
        }
    }
}

/// The empty text. Takes no memory.
impl Default for Text {
    ghost is_default = { λ t. t ≡ [] };

    fn default() -> Text {
        Text {
            kept: Kept::Short(Packed::new("")),
        }
    }
}

impl Drop for Text {
    #[inline]
    fn drop(self) {
        let Text { kept } = self;
        match kept {
            Kept::Short(_) => {}
            Kept::Middling(middling) => drop(middling),
            Kept::Long(long) => drop(long),
        }
    }
}

impl Clone for Text {
    ghost is_clone = { λ t copy. copy ≡ t };

    fn clone(&self) -> Result<Text, AllocError> {
        let kept = match &self.kept {
            Kept::Short(short) => Kept::Short(*short),
            Kept::Middling(middling) => Kept::Middling(middling.clone()?),
            Kept::Long(long) => Kept::Long(long.clone()?),
        };
        Ok(Text { kept })
    }
}

impl PartialEq for Text {
    ghost eq = { λ x y. pointwise nat_eq x y };

    ghost laws = { laws.partial_equiv_from_equiv nat_list_eq_equiv };

    fn eq(&self, other: &Self) -> bool {
        self.as_str() == other.as_str()
    }
}

impl Eq for Text {
    ghost laws = { nat_list_eq_equiv };
}

impl PartialOrd for Text {
    ghost partial_cmp = { λ x y. Some (slice_cmp nat_cmp x y) };

    ghost laws = { texts_po };

    fn partial_cmp(&self, other: &Self) -> Option<Ordering> {
        Some(self.cmp(other))
    }
}

impl Ord for Text {
    ghost cmp = { slice_cmp nat_cmp };

    ghost total = { nat_list_cmp_total };

    ghost matches_partial_cmp = { λ x y. refl };

    ghost matches_eq = { texts_ties };

    fn cmp(&self, other: &Self) -> Ordering {
        self.as_str().cmp(other.as_str())
    }
}

impl fmt::Debug for Text {
    fn fmt<W: fmt::Write>(&self, f: &mut fmt::Formatter<W>) -> fmt::Result {
        fmt::Debug::fmt(self.as_str(), f)
    }
}

impl fmt::Display for Text {
    ghost output = { λ t. Some t };

    fn fmt<W: fmt::Write>(&self, f: &mut fmt::Formatter<W>) -> fmt::Result {
        f.write_str(self.as_str())
    }
}

/// Whether a text is this short word: it is compared in place, since a call would take longer than the comparison.
#[inline(always)]
pub fn is_word<const N: usize>(text: &str, word: &[u8; N]) -> bool
    ensures { result ≡ bytes_eq text.now word.now }
{
    let bytes = text.as_bytes();
    if bytes.len() != N {
        return false;
    }
    'bytes: for i in 0..N {
        if bytes[i] != word[i] {
            return false;
        }
    }
    true
}
