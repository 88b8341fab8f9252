//! What no contract says: which slots a store finds, how chunks are shaped, how often nodes are shown, how texts are
//! kept and printed, and which lists of writes are refused.
mod claims;
mod desks;
mod groups;
mod maps;
mod rescans;
mod stores;
mod texts;
mod trees;
mod writes;
