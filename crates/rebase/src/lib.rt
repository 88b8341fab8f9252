//! Clients of one group, on any threads, over any store.
//!
//! The clients of a group share the nodes of a store and the head of its book. Each has a seat: what it claims slots
//! with, and what it has seen of the book. A query pins the seat, looks where the head is, reads the commit there, and
//! takes the pin away again. A change is drafted at that commit, its nodes are placed, and the head is moved there;
//! where others moved it first, it is made anew at the commit where they left it.
//!
//! Each call's clause `answer` is `IsLinearized` of `linearized`: a right reply at one point of the call. What a call
//! leaves is one word: `AfterChange`, `AfterLook`, `AfterQuery`, `AfterRead` (an open reader). Why a change is refused
//! with Full, Busy or Stamps is `cause`, what it does to slots `frees`.
//!
//! Decisions. A group is a handle on an `Arc`, and a client has no lifetime, so programs keep clients in structs and
//! hand them to threads; it costs `Drop` bounds on mutators and store. A reader holds its client by `&mut`, so it has
//! no model: `lent`, `seen_by` and `read_by` say what it shows. It has a copy of its client's mark and the root of its
//! map, so it loads the head once and looks at the commit once. It looks whether its pin is held before each answer,
//! since a type can't keep that of what lies behind its `&mut`; the pin is never found missing, and the answer would be
//! Gone. A group is counted by a client (`slots`), since a load without a seat tells nothing that a clause could name.
//! A call that may wait tries 1,000 times before it begins anew; in between it has no pin and no taken slot. A watch
//! may be polled by any client of its group: it keeps the rows told last and what was seen of the book then, so at a
//! root that it met before, and where all chunks are the same in which its rows lie, a poll reads no row; else it reads
//! only chunks that the last one didn't meet, and those of which it wants rows that the scan's limit cut off. A seat
//! that comes back needs the room that it left, so `back` takes no memory. A list of calls says of each what
//! `make_call` says of one (`IsMade`), but that the client rests in between.
//! A reader that is kept (`Reader`) has its client: its model is the client's, and its type keeps that the pin is held,
//! so its commit is had without a refusal. A group's moment is the stamp of the commit where its head is: moves go to
//! ever greater stamps, so two states are told apart by one look each, without a pin.
//! A change whose mutators the caller runs (`Asking`) has its client, so no other call is made meanwhile, and keeps the
//! pin. It can't be dropped: a drop of what is owned has no clause, so a body that left the pin would be proved. What
//! was known when its call began is no data of the type, so its clauses hold of each client by which it began
//! (`BeganAs`). That a run did what the group's meanings say is the one premise, and stands on `ran`.
#![tactic(auto)]

mod answering;
mod asking;
mod asks;
mod calls;
mod changes;
mod client;
mod config;
mod group;
mod moments;
mod queries;
mod readers;
mod reading;
mod rows;
mod seats;
mod sitting;
mod tickets;
mod watching;

pub use asking::{Asked, Asking};
pub use calls::{Call, CallReply, Mutate};
pub use change_drafts::{Has, Runs};
pub use chunk_slots::{Append, Arena};
pub use client::Client;
pub use commit_graph::StoreNodes;
pub use config::{Config, MIN_SLOTS, OutOfRange};
pub use group::Group;
pub use group_history::{
    Cookie, Ended, Json, Means, Mutation, Mutators, Ran, Reason, Refusal, Scan, Start, Stop, Text,
    Update, VersionKind, WriteView,
};
pub use head_word::Mark;
pub use push_body::Identity;
pub use reader_claims::SlotCounts;
pub use readers::Reader;
pub use reading::ReadTx;
pub use rows::Rows;
pub use seats::{Seat, Seats};
pub use tickets::Ticket;
pub use transactions::{ReadTx as CommitTx, TakesRows};
pub use uuid::Uuid;
pub use watching::{Polled, Watch};
