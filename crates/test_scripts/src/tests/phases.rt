//! Of scripts: that the clients of a phase run at the same time, and what they meet where the slots are few.
use script_runner::{Fault, Gate, run};
use std::alloc::{AllocError, AllocGlobal, Global};
use std::sync::Wait;
use std::sync::atomic::{AtomicU64, Ordering};
use std::thread::Threads;

// How often a client looks for the other one. A turn is one load of an atomic word.
const TURNS: u64 = 1_000_000_000;

// What a gate was asked for a client: how often before its call, and after; and how often for a line that is not its
// own, after a call that had not begun, or where the other client did not come to its call meanwhile.
#[derive(Drop)]
struct TimesAsked {
    before: AtomicU64,
    after: AtomicU64,
    wrong: AtomicU64,
}

impl TimesAsked {
    fn new() -> TimesAsked {
        TimesAsked {
            before: AtomicU64::new(0),
            after: AtomicU64::new(0),
            wrong: AtomicU64::new(0),
        }
    }

    fn counts(&self, are_right: bool) {
        if !are_right {
            self.wrong.fetch_add(1, Ordering::SeqCst);
        }
    }

    // Whether the other client comes to its call in time.
    fn meets(&self, other: &TimesAsked) -> bool {
        for _ in 0..TURNS {
            if other.before.load(Ordering::SeqCst) > 0 {
                return true;
            }
        }
        false
    }

    fn told(&self) -> (u64, u64, u64) {
        (
            self.before.load(Ordering::SeqCst),
            self.after.load(Ordering::SeqCst),
            self.wrong.load(Ordering::SeqCst),
        )
    }
}

// A gate at which two clients meet: A with the line 4, and B with the line 5. Each looks before its call whether the
// other has come to its own.
#[derive(Drop)]
struct Meeting {
    a: TimesAsked,
    b: TimesAsked,
}

impl Meeting {
    fn new() -> Meeting {
        Meeting {
            a: TimesAsked::new(),
            b: TimesAsked::new(),
        }
    }

    // The client's own side, its line, and the other's side.
    fn sides(&self, client: &str) -> (&TimesAsked, u64, &TimesAsked) {
        if client == "A" {
            (&self.a, 4, &self.b)
        } else {
            (&self.b, 5, &self.a)
        }
    }
}

impl Gate for Meeting {
    fn before(&self, client: &str, line: u64) {
        let (own, number, other) = self.sides(client);
        own.before.fetch_add(1, Ordering::SeqCst);
        own.counts(line == number && own.meets(other));
    }

    fn after(&self, client: &str, line: u64) {
        let (own, number, _) = self.sides(client);
        let begun = own.before.load(Ordering::SeqCst);
        own.after.fetch_add(1, Ordering::SeqCst);
        own.counts(line == number && begun == 1);
    }
}

const TWO_CALLS: &str = "client A 00000000-0000-4000-8000-00000000000a
client B 00000000-0000-4000-8000-00000000000b
phase
A get n
B get n
";

// What a run of the script writes.
fn output_of<R: AllocGlobal + Threads + Wait + Sync, G: Gate>(
    rt: &R,
    script: &str,
    gate: &G,
) -> Result<Vec<u8>, Fault> {
    let mut out = Vec::new(rt.alloc());
    run(rt, script.as_bytes(), gate, &mut out)?;
    Ok(out)
}

// Whether both clients, which are to meet at the gate, get nothing at `n`.
fn both_get_none<R: AllocGlobal + Threads + Wait + Sync>(
    rt: &R,
    gate: &Meeting,
) -> Result<bool, Fault> {
    let out = output_of(rt, TWO_CALLS, gate)?;
    Ok(out.as_slice() == "4 A none\n5 B none\n".as_bytes())
}

#[test]
fn clients_of_a_phase_meet(rt: HostRuntime) -> Result<(), Fault> {
    let gate = Meeting::new();
    let are_none = both_get_none(&rt, &gate)?;
    assert_eq!(rt; gate.a.told(), (1, 1, 0));
    assert_eq!(rt; gate.b.told(), (1, 1, 0));
    assert!(rt; are_none);
    Ok(())
}

// A gate that lets every call go on.
struct OpenGate;

impl Gate for OpenGate {
    fn before(&self, _client: &str, _line: u64) {}

    fn after(&self, _client: &str, _line: u64) {}
}

// A group of 64 slots has 48 ordinary ones. What was pulled has two of them, and each mutation takes two, so 23 find
// room.
const ROOM: u64 = 23;

// What is done before two clients fill such a group. It ends with the phase of that.
const FEW_SLOTS: &str = r#"slots 64
client A 00000000-0000-4000-8000-00000000000a
client B 00000000-0000-4000-8000-00000000000b
phase
A begin t
A end t {"cookie":1,"lastMutationIDChanges":{},"patch":[{"op":"put","key":"n","value":0}]}
phase
"#;

// A mutation of each, to be made a hundred times.
const BOTH_ADD: &str = r#"A mutate 1 incr ["n",1]
B mutate 1 incr ["n",1]
"#;

// What A reads when it has learnt what B saw.
const A_READS: &str = "phase
A learn B
A get n
";

fn few_slots(alloc: Global) -> Result<String, AllocError> {
    let mut script = String::new(alloc);
    script.push_str(FEW_SLOTS)?;
    for _ in 0..100 {
        script.push_str(BOTH_ADD)?;
    }
    script.push_str(A_READS)?;
    Ok(script)
}

// How many of a client's replies are ids in their order, how many are Full, and how many are neither.
#[derive(Clone, Copy, PartialEq, Eq, Debug)]
struct Replies {
    ids: u64,
    full: u64,
    others: u64,
}

impl Replies {
    fn add(&mut self, reply: &str) {
        let id = reply
            .strip_prefix("id ")
            .and_then(|number| number.parse::<u64>().ok());
        if id == Some(self.ids.wrapping_add(1)) {
            self.ids = self.ids.wrapping_add(1);
        } else if reply == "refused Full" {
            self.full = self.full.wrapping_add(1);
        } else {
            self.others = self.others.wrapping_add(1);
        }
    }

    // Whether each of the hundred mutations had its id, or found no room.
    fn are_ids_or_full(self) -> bool {
        self.others == 0 && self.ids.wrapping_add(self.full) == 100
    }
}

// What the client of this name was replied in the phase of the mutations, the lines from 8 to 207.
fn replies_to(name: &str, out: &str) -> Replies {
    let mut replies = Replies {
        ids: 0,
        full: 0,
        others: 0,
    };
    for line in out.lines() {
        if let Some((number, rest)) = line.split_once(' ') {
            let number = number.parse::<u64>().unwrap_or(0);
            if (8..208).contains(&number) && rest.starts_with(name) {
                replies.add(rest.get(2..).unwrap_or(""));
            }
        }
    }
    replies
}

// What both clients were replied, and whether A reads at the end as many as they had ids.
#[derive(Clone, Copy, Debug)]
struct Filled {
    a: Replies,
    b: Replies,
    is_read: bool,
}

impl Filled {
    fn are_ids_or_full(self) -> bool {
        self.a.are_ids_or_full() && self.b.are_ids_or_full()
    }

    fn ids(self) -> u64 {
        self.a.ids.wrapping_add(self.b.ids)
    }
}

// Whether the last lines are those in which A has learnt what B saw, and reads so many.
fn ends_with_sum(alloc: Global, out: &str, ids: u64) -> Result<bool, AllocError> {
    let last = format!(in alloc; "\n209 A learnt\n210 A value {ids}\n")?;
    Ok(out.ends_with(last.as_str()))
}

fn filled_of(alloc: Global, out: &[u8]) -> Result<Filled, AllocError> {
    let out = str::from_utf8(out).unwrap_or("");
    let a = replies_to("A ", out);
    let b = replies_to("B ", out);
    let is_read = ends_with_sum(alloc, out, a.ids.wrapping_add(b.ids))?;
    Ok(Filled { a, b, is_read })
}

// What is told where two clients fill few slots.
fn few_slots_filled<R: AllocGlobal + Threads + Wait + Sync>(rt: &R) -> Result<Filled, Fault> {
    let script = few_slots(rt.alloc())?;
    let out = output_of(rt, script.as_str(), &OpenGate)?;
    Ok(filled_of(rt.alloc(), &out)?)
}

#[test]
fn clients_of_a_phase_fill_few_slots(rt: HostRuntime) -> Result<(), Fault> {
    let filled = few_slots_filled(&rt)?;
    assert!(rt; filled.are_ids_or_full(), "{filled:?}");
    assert!(rt; filled.ids() <= ROOM, "{filled:?}");
    assert!(rt; filled.is_read, "{filled:?}");
    Ok(())
}
