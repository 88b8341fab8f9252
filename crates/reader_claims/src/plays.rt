// The rule of the table, and what each kind of step tells.
ghost use Rattle.reader_claims.specs.Views.{dealer};
ghost use Rattle.reader_claims.specs.Machine.{Lawful};
ghost use Rattle.reader_claims.specs.Inside.Plays.{dealt_left, dealt_right, loaded, stored, cleared_pin, raised_epoch};
ghost use Rattle.reader_claims.specs.Inside.Plays.{read, looked_at, took, gave_slot, made_live, withdrawn, retired};

use crate::view::{Sizes, View};
use atomic_table::{Play, Split, TableRule};

pub(crate) struct Claimed;

impl TableRule<(), View, Sizes> for Claimed {
    ghost holds = { Lawful };

    ghost first = { λ k. dealer k 1 };
}

pub(crate) struct Deal;

impl Split<View> for Deal {
    ghost left = { dealt_left };

    ghost right = { dealt_right };
}

pub(crate) struct LoadEpoch;

impl Play<(), View> for LoadEpoch {
    ghost then = { loaded };
}

pub(crate) struct StorePin;

impl Play<(), View> for StorePin {
    ghost then = { stored };
}

pub(crate) struct ClearPin;

impl Play<(), View> for ClearPin {
    ghost then = { cleared_pin };
}

pub(crate) struct LoadPin;

impl Play<(), View> for LoadPin {
    ghost then = { read };
}

pub(crate) struct LookSlot;

impl Play<(), View> for LookSlot {
    ghost then = { looked_at };
}

pub(crate) struct RaiseEpoch;

impl Play<(), View> for RaiseEpoch {
    ghost then = { raised_epoch };
}

pub(crate) struct Take;

impl Play<(), View> for Take {
    ghost then = { took };
}

pub(crate) struct Settle;

impl Play<(), View> for Settle {
    ghost then = { made_live };
}

pub(crate) struct Withdraw;

impl Play<(), View> for Withdraw {
    ghost then = { withdrawn };
}

pub(crate) struct Retire;

impl Play<(), View> for Retire {
    ghost then = { retired };
}

pub(crate) struct Give;

impl Play<(), View> for Give {
    ghost then = { gave_slot };
}
