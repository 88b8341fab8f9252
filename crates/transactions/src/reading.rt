//! A commit that is read.
//!
//! The type's invariant is that the head's stamp spells a version and the root's stamp the map of it (`IsRead`), and
//! that a node may be looked for at either. Contracts see the version, which no call changes, and what is known to be
//! placed, which may grow with each call, also with one that stops.
ghost use Rattle.std.specs.Prelude.{◌≡◌, ◌⊎◌, ◌==◌, length, Some, IfOk, IfErr, OnErr, OnOk, IsSome};
ghost use mathlib.Core.List.{IsPrefix};
ghost use Rattle.std.specs.FinMap as finite;
ghost use Rattle.group_history.specs.Refs.{stamp_of};
ghost use Rattle.group_history.specs.Scans.{rows_of};
ghost use Rattle.group_history.specs.Spelling.{Contents, Version, map_at, version_at};
ghost use Rattle.map_chunks.specs.Covers.{Covers};
ghost use Rattle.map_chunks.specs.Places.{Grows};
ghost use Rattle.map_chunks.specs.Scanning.{scanned};
ghost use Rattle.map_chunks.specs.Sinks.{HasMore, HasBegun};
ghost use Rattle.group_history.specs.declared.mutators.Stop.TheVariants.{NoMemory};
ghost use Rattle.transactions.specs.Reads.{pulled_version};
ghost use Rattle.transactions.specs.Rescans.{IsRescanned};
ghost use Rattle.transactions.specs.Spans.{AreSpans};

use crate::again::{Before, Rescanned, scan_again};
use crate::spans::Spans;
use commit_graph::{Nodes, closed_of, cookie_of, read_root, top_of, walk};
use group_history::{Cookie, Json, Mutation, Ref, Scan, Stop, Text};
use map_chunks::covers::{Cover, cover_placed};
use map_tree::{TakesRows, Tree};
use std::alloc::Global;
use std::marker::Model;

/// Reads one commit. Every answer is that of the commit on which it was opened.
#[derive(Drop)]
pub struct ReadTx<N: Nodes> {
    alloc: Global,
    nodes: N,
    head: Ref,
    root: Ref,
}

impl<N: Nodes> Model for ReadTx<N> {
    ghost use Rattle.std.specs.Prelude.{◌≡◌};
    ghost use Rattle.std.specs.Ordering.{nat_cmp};
    ghost use Rattle.std.specs.Cmp.Lexicographic.{slice_cmp};
    ghost use Rattle.std.specs.Coded.{codes, coded_ℕ, coded_list};
    ghost use Rattle.std.specs.FinMap as finite;
    ghost use Rattle.group_history.specs.Refs.{stamp_of};
    ghost use Rattle.transactions.specs.Reads.{Read, IsRead, read_version};

    ghost Value = { Read };

    ghost coded = { Prim.hlevel (
      codes,
      finite.code {R = slice_cmp nat_cmp} (coded_list coded_ℕ) (coded_list coded_ℕ),
      finite.code {R = slice_cmp nat_cmp} (coded_list coded_ℕ) coded_ℕ,
    ) };

    ghost view = { λ tx. record {
      contents = N.contents tx.nodes;
      version = read_version (N.contents tx.nodes) (stamp_of tx.head);
    } };

    ghost invariant = { λ tx. IsRead (N.contents tx.nodes) (stamp_of tx.head) (stamp_of tx.root)
        × N.places tx.nodes tx.head × N.places tx.nodes tx.root };
}

impl<N: Nodes> ReadTx<N> {
    /// Opens a commit. Where it stops, the nodes are handed back.
    pub fn open(alloc: Global, nodes: N, head: Ref) -> Result<ReadTx<N>, (N, Stop)>
        requires known { IsSome (version_at (N.contents nodes) (stamp_of head)) }
        requires place { N.places nodes head }
        ensures version { (v : Version) → version_at (N.contents nodes) (stamp_of head) ≡ Some v
            → IfOk result (λ tx. tx.version ≡ v) }
        ensures grown { IfOk result (λ tx. IsPrefix (N.contents nodes) tx.contents) }
        ensures back { IfErr result (λ e. Grows N.contents N.places nodes e.0) }
        ensures stopped { IfErr result (λ e. N.stops e.1) }
    {
        let mut nodes = nodes;
        match read_root(&mut nodes, head) {
            Ok(root) => Ok(ReadTx {
                alloc,
                nodes,
                head,
                root,
            }),
            Err(stop) => Err((nodes, stop)),
        }
    }

    /// Reads a commit whose root is known. Looks at nothing.
    pub fn at(alloc: Global, nodes: N, head: Ref, root: Ref) -> ReadTx<N>
        requires read { (v : Version) × (version_at (N.contents nodes) (stamp_of head) ≡ Some v)
            × (map_at (N.contents nodes) (stamp_of root) ≡ Some v.read) }
        requires places { N.places nodes head × N.places nodes root }
        ensures version { (v : Version) → version_at (N.contents nodes) (stamp_of head) ≡ Some v → result.version ≡ v }
        ensures contents { result.contents ≡ N.contents nodes }
    {
        ReadTx {
            alloc,
            nodes,
            head,
            root,
        }
    }

    /// The value at a key.
    pub fn get(&mut self, key: &str) -> Result<Option<Json>, Stop>
        ensures value { IfOk result (λ found. found ≡ finite.get self.old.version.read key.now) }
        ensures same { self.new.version ≡ self.old.version }
        ensures grown { IsPrefix self.old.contents self.new.contents }
        ensures stopped { IfErr result (λ stop. (stop ≡ NoMemory) ⊎ N.stops stop) }
    {
        Tree::at(self.root).get(&mut self.nodes, key)
    }

    /// Whether the key is there. Takes no memory.
    pub fn has(&mut self, key: &str) -> Result<bool, Stop>
        ensures value { IfOk result (λ found. found ≡ finite.contains_key self.old.version.read key.now) }
        ensures same { self.new.version ≡ self.old.version }
        ensures grown { IsPrefix self.old.contents self.new.contents }
        ensures stopped { IfErr result N.stops }
    {
        Tree::at(self.root).has(&mut self.nodes, key)
    }

    /// The pairs that the scan asks for, in the order of their keys.
    pub fn scan(&mut self, scan: &Scan) -> Result<Vec<(Text, Json)>, Stop>
        ensures rows { IfOk result (λ rows. rows.items ≡ rows_of scan.now self.old.version.read) }
        ensures same { self.new.version ≡ self.old.version }
        ensures grown { IsPrefix self.old.contents self.new.contents }
        ensures stopped { IfErr result (λ stop. (stop ≡ NoMemory) ⊎ N.stops stop) }
    {
        Tree::at(self.root).scan(self.alloc, &mut self.nodes, scan)
    }

    /// Gives the pairs that the scan asks for to the sink, in the order of their keys, each by reference.
    /// Where it stops, the sink has a beginning of them.
    pub fn scan_into<S: TakesRows>(&mut self, scan: &Scan, sink: &mut S) -> Result<(), Stop>
        ensures rows { OnOk result (HasMore S.has sink.old sink.new (rows_of scan.now self.old.version.read)) }
        ensures begun { OnErr result (HasBegun S.has sink.old sink.new (rows_of scan.now self.old.version.read)) }
        ensures same { self.new.version ≡ self.old.version }
        ensures grown { IsPrefix self.old.contents self.new.contents }
        ensures stopped { IfErr result (λ stop. (stop ≡ NoMemory) ⊎ N.stops stop) }
    {
        Tree::at(self.root).scan_into(&mut self.nodes, scan, sink)
    }

    /// The few topmost chunks in which the rows lie that the scan asks for, its limit aside. Where they are the same at
    /// another commit, so are these rows.
    pub fn cover(&mut self, scan: &Scan) -> Result<Cover, Stop>
        ensures cover { IfOk result (λ cover. Covers scan.now self.old.contents cover
            (scanned scan.now (finite.entries self.old.version.read))) }
        ensures same { self.new.version ≡ self.old.version }
        ensures grown { IsPrefix self.old.contents self.new.contents }
        ensures stopped { IfErr result (λ stop. (stop ≡ NoMemory) ⊎ N.stops stop) }
    {
        cover_placed(self.alloc, &mut self.nodes, self.root, scan)
    }

    /// Takes the rows that the scan asks for beside those of before, of which these spans are known. Only chunks are
    /// read that have no span, or more rows than the limit lets in.
    pub fn scan_again(
        &mut self,
        scan: &Scan,
        before: &[(Text, Json)],
        known: &Spans,
    ) -> Result<Rescanned, Stop>
        ensures found { IfOk result (λ found. (all : Contents) → IsPrefix self.old.contents all
            → AreSpans scan.now all before.now known.now → IsRescanned scan.now all before.now
            (rows_of scan.now self.old.version.read) found) }
        ensures same { self.new.version ≡ self.old.version }
        ensures grown { IsPrefix self.old.contents self.new.contents }
        ensures stopped { IfErr result (λ stop. (stop ≡ NoMemory) ⊎ N.stops stop) }
    {
        let before = Before {
            rows: before,
            spans: known,
        };
        scan_again(self.alloc, &mut self.nodes, self.root, scan, before)
    }

    /// Whether no key is there. Takes no memory.
    pub fn is_empty(&mut self) -> Result<bool, Stop>
        ensures value { IfOk result (λ b. b ≡ (length (finite.entries self.old.version.read) == 0)) }
        ensures same { self.new.version ≡ self.old.version }
        ensures grown { IsPrefix self.old.contents self.new.contents }
        ensures stopped { IfErr result N.stops }
    {
        Tree::at(self.root).is_empty(&mut self.nodes)
    }

    /// The mutations that are not confirmed, the oldest first.
    pub fn pending(&mut self) -> Result<Vec<Mutation>, Stop>
        ensures pending { IfOk result (λ xs. xs.items ≡ self.old.version.state.pending) }
        ensures same { self.new.version ≡ self.old.version }
        ensures grown { IsPrefix self.old.contents self.new.contents }
        ensures stopped { IfErr result (λ stop. (stop ≡ NoMemory) ⊎ N.stops stop) }
    {
        walk(self.alloc, &mut self.nodes, self.head)
    }

    /// The cookie of the commit's state.
    pub fn cookie(&mut self) -> Result<Cookie, Stop>
        ensures cookie { IfOk result (λ cookie. cookie ≡ self.old.version.state.cookie) }
        ensures same { self.new.version ≡ self.old.version }
        ensures grown { IsPrefix self.old.contents self.new.contents }
        ensures stopped { IfErr result (λ stop. (stop ≡ NoMemory) ⊎ N.stops stop) }
    {
        cookie_of(&mut self.nodes, self.head)
    }

    /// Whether the group is closed at the commit. Takes no memory.
    pub fn closed(&mut self) -> Result<bool, Stop>
        ensures closed { IfOk result (λ closed. closed ≡ self.old.version.state.closed) }
        ensures same { self.new.version ≡ self.old.version }
        ensures grown { IsPrefix self.old.contents self.new.contents }
        ensures stopped { IfErr result N.stops }
    {
        closed_of(&mut self.nodes, self.head)
    }

    /// The same moment without what is pending: reads the snapshot at which the commit's chain begins, so every answer
    /// is of what the server last sent (Replicache, How It Works, "The Client View"). Two looks. Takes no memory.
    pub fn pulled(self) -> Result<ReadTx<N>, Stop>
    where
        N: Drop,
        ensures version { IfOk result (λ tx. tx.version ≡ pulled_version self.version) }
        ensures grown { IfOk result (λ tx. IsPrefix self.contents tx.contents) }
        ensures stopped { IfErr result N.stops }
    {
        let ReadTx {
            alloc,
            nodes,
            head,
            root: _,
        } = self;
        let mut nodes = nodes;
        let top = top_of(&mut nodes, head)?;
        let root = read_root(&mut nodes, top.snapshot)?;
        Ok(ReadTx {
            alloc,
            nodes,
            head: top.snapshot,
            root,
        })
    }

    /// Ends the reading, and hands back the nodes.
    pub fn close(self) -> N
        ensures { N.contents result ≡ self.contents }
    {
        self.nodes
    }
}
