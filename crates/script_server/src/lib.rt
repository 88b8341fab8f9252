//! Answers the lines of a script at once, one by one, for a program that holds a group over a pipe. `docs/SERVE.md` has
//! the lines.
//!
//! A line is answered before the next one is read. `heads` has the lines before the first phase, and the rules that may
//! be among them; `opened` the lines from it on, which the clients of a group answer; `streams` reads a line and writes
//! an answer; `server` is all of it over a reader and two writers, with the statuses of a process.
//!
//! What a line is answered, and how it leaves the clients, is `specs/Answers.antt`: what a script's line says is the
//! parser's word (`bytes_said_with`), what a client's line is told the runner's (`IsToldAt`; `IsPlainlyTold`: what the
//! group of one thread replies behind all lines before), what rules are that of `rule_mutators`. What a whole input is
//! answered is `specs/Serving.antt`; `program` has the clauses. Where serving ends early they say how many lines were
//! answered, and that a beginning at most was written of one answer more, whose line may have been done. Each answer is
//! one line (`IsLine`). No clause of the group says that a reply has no line feed inside, so `write_answer` looks
//! before it writes: a text that were no line would end serving as a failed write does.
//!
//! Decisions. A meaning belongs to a type, and rules are values: so the group is opened in a function of its own
//! (`serve_phases`), at the call of which the rules are picked. A stage is seen as `Standing`, and what a function did
//! to it and to the streams is one word (`Served`, `HasEnded`), which goes on from place to place. The clients have all
//! seats of their group, so nobody else changes it; but a caller of one seat never learns that at once. It is counted
//! at the end (`settle`), and then holds behind each line: until there the clauses of `opened` say what follows from it
//! (`WhereWhole`).
//!
//! Not said: that a line is answered before the next one is read, which no clause can; why a reader or a writer failed.
#![tactic(auto)]

mod heads;
mod opened;
mod printing;
mod server;
mod streams;

pub use server::program;
