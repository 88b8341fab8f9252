//! What no contract says of a run: that clients of a phase run at once, and how it ends over streams that fail.
mod lines;
mod phases;
mod streams;
