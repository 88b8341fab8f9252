//! Reading a pull's response, and a run's writes. `docs/FORMATS.md` has the grammar of responses in words.
//!
//! A body that is plain is read from token to token, with no tree of the whole (`plain`): without an error, and with
//! whole numbers alone in what counts. Any other one is read as a tree of JSON. There all that the response needs is
//! looked for with its type: the cookie, the confirmed ids and the patch, or the field `error`. Only where the whole
//! shape is right is a number that isn't whole told. What the bytes are to be read as is written down in
//! `specs/Grammar.antt`, and `read_response` answers that, for every byte string.
//!
//! Decisions. Two readers, since a tree of a body takes up to 37 bytes for each of its bytes. A put's value is written
//! again from its tokens, and that is its compact text where its names ascend and its numbers are whole. Servers that
//! are written in JavaScript keep names as they were made; so where the names of an earlier value didn't ascend, one
//! is read as a tree from its tokens (`plain/trees.rt`), and so is the first, which tells how the names stand. The
//! cookie and the ids are read so too: `serde_json` reads a tree from a text alone, and clears 16 kB for each. That is
//! done once at most, at the first value whose names don't ascend behind one where they did.
//!
//! Both ways go down a call or two a level, and stop at 128: a body 123 deep needs a stack of 190 kB. `plain_response`
//! refuses nothing but for want of memory. No clause says which bodies are plain, and no proof bounds a stack.
//!
//! A run's writes are a bare list of a patch's operations `put` and `del` (`writes`), read as a tree.
//!
//! What a response's patch makes of a map, and the order of cookies, are `group_history`'s.
#![tactic(auto)]

mod changes;
mod fields;
mod laws;
mod operations;
mod plain;
mod response;
mod writes;

pub use group_history::{apply_patch, cookie_cmp};
pub use laws::{unknown_fields_law, whole_numbers_law, worked_bodies, worked_writes};
pub use response::read_response;
pub use writes::{Write, read_writes};
