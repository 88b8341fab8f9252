//! A place of a host, as C has it.
ghost use Rattle.std.specs.Prelude.{◌≡◌, ℕ, Bool, List, None, Option};
ghost use Rattle.giqaymu_c.specs.Own.{Run};
ghost use Rattle.giqaymu_c.specs.Codes.{runs_coded, spot_coded};
ghost use Rattle.giqaymu_c.specs.Spots.{SpotState};
ghost use Rattle.giqaymu_c.specs.Jobs.{Acts, IsFit, asks_for, meant_at, text_for};

use crate::held::MaybeBox;
use crate::jobs::{Job, JobReply};
use crate::spots::{OpenPlace, act_held};
use std::alloc::Global;
use std::marker::{Brand, Model};

/// A place of a host: nothing, where the flag is 0. C zeroes it before it is opened, and changes nothing of it.
///
/// By which rules its group was opened, whether changes ask the host for runs of other names, and how it stands, is
/// ghost data. So are the runs of the host's own mutators, as a list: what each of them means; at anything else a
/// mutator is unknown. A host that tells of other runs breaks the premise of `giq_call`.
#[repr(C)]
pub struct Handle {
    at: *mut u8,
    is_open: u64,
    pub ghost text: { List ℕ },
    pub ghost asks: { Bool },
    pub ghost own: { List Run } by { runs_coded },
    pub ghost spot: { Option SpotState } by { spot_coded },
}

impl Model for Handle {
    ghost use Rattle.giqaymu_c.specs.Owned.{place_owns};

    ghost also_owns = { λ h. place_owns h.text h.asks h.own h.is_open h.at h.spot };
}

impl Handle {
    /// A closed place, at which this job fits. The host's own mutators have the runs of the other place.
    pub(crate) fn none_for(job: Job<'_>, like: &Handle) -> Handle
        ensures { (result.spot ≡ None) × (result.text ≡ text_for job.entry) × (result.asks ≡ asks_for job.entry)
            × (result.own ≡ like.now.own) }
    {
        let _ = job;
        let _ = like;
        Handle {
            at: std::ptr::null_mut(),
            is_open: 0,
        }
    }

    /// Lets go of a closed place.
    pub(crate) fn forget(self)
        requires { self.spot ≡ None }
    {
        let Handle { at: _, is_open: _ } = self;
    }
}

/// Does a job at a place. What comes second is the place that is given.
///
/// This and what it calls is inlined, so that a job is not copied on its way: a call takes some 9 ns less.
#[inline(always)]
pub(crate) fn act(handle: Handle, alloc: Global, job: Job<'_>) -> (Handle, Handle, JobReply)
    requires { IsFit job (meant_at handle.text handle.asks handle.own) handle.spot }
    ensures { ((result.0.text ≡ handle.text) × (result.0.asks ≡ handle.asks) × (result.0.own ≡ handle.own))
        × ((result.1.text ≡ handle.text) × (result.1.asks ≡ handle.asks) × (result.1.own ≡ handle.own))
        × Acts job.entry (meant_at handle.text handle.asks handle.own) handle.spot result.2 result.0.spot
        result.1.spot }
{
    let Handle { at, is_open } = handle;
    let held = MaybeBox {
        at: at as *mut OpenPlace<Brand>,
        is_open,
    };
    let (first, second, reply) = act_held::<Brand>(held, alloc, job);
    let MaybeBox { at, is_open } = first;
    let first = Handle {
        at: at as *mut u8,
        is_open,
    };
    let MaybeBox { at, is_open } = second;
    let second = Handle {
        at: at as *mut u8,
        is_open,
    };
    (first, second, reply)
}
