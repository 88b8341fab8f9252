//! The bodies of the two requests that a client sends: a push and a pull.
//!
//! A body is a compact JSON object with its fields in the order of their names. `specs/` says each body's bytes, and
//! `bodies_read_back` that a JSON reader finds in them just what was put in.
//!
//! A text without escapes is appended as it stands, and a number by `itoa`. Any other text is written by `json`'s
//! writer, which is `serde_json`'s own, and the law that the bodies read back rests on its lemmas.
#![tactic(auto)]

mod body;
mod identities;
mod laws;
mod plain;
mod pull;
mod push;
mod quoted;
mod writer;

pub use identities::Identity;
pub use laws::bodies_read_back;
pub use pull::pull_bytes;
pub use push::push_bytes;
pub use quoted::push_quoted;
pub use writer::{PushWriter, mutation_bytes};
