// The rule of the table, and the names of its steps.
use crate::view::View;
use atomic_table::{Join, Play, Split, TableRule};
use plex_num::Seq;
use std::marker::{Brand, PhantomData};

pub(crate) struct Rule;

impl TableRule<(), View, Seq<u32>> for Rule {
    ghost use Rattle.shared_store.specs.Rule.{Lending};
    ghost use Rattle.shared_store.specs.Loans.{unlent};
    ghost use Rattle.shared_store.specs.declared.view.View.TheVariants.{Root};

    ghost holds = { λ _. Lending };

    ghost first = { λ key. Root (unlent key) };
}

pub(crate) struct Look;

impl Play<(), View> for Look {
    ghost use Rattle.shared_store.specs.Rule.{looked};

    ghost then = { looked };
}

pub(crate) struct Put;

impl Play<(), View> for Put {
    ghost use Rattle.shared_store.specs.Rule.{put};

    ghost then = { put };
}

pub(crate) struct RootLook;

impl Play<(), View> for RootLook {
    ghost use Rattle.shared_store.specs.Rule.{root_looked};

    ghost then = { root_looked };
}

pub(crate) struct RootPut;

impl Play<(), View> for RootPut {
    ghost use Rattle.shared_store.specs.Rule.{root_put};

    ghost then = { root_put };
}

/// What is lent. A call at `Brand` picks it from its arguments.
pub trait Terms {
    ghost use Rattle.job_types.specs.declared.job.JobStart.{JobStart};
    ghost use Rattle.machine_code.specs.declared.permit.Permit.{Permit};

    ghost start: { JobStart };

    ghost permit: { Permit };
}

impl Terms for Brand {
    ghost use Rattle.shared_store.specs.Seats.{no_start, no_permit};

    ghost start = { no_start };

    ghost permit = { no_permit };
}

pub(crate) struct Cut<T> {
    terms: PhantomData<T>,
}

impl<T: Terms> Split<View> for Cut<T> {
    ghost use Rattle.shared_store.specs.Rule.{cut_left, cut_right};

    ghost left = { cut_left T.start T.permit };

    ghost right = { cut_right T.start T.permit };
}

pub(crate) struct Rejoin;

impl Join<View> for Rejoin {
    ghost use Rattle.shared_store.specs.Rule.{both};
    ghost use Rattle.shared_store.specs.declared.view.View.TheVariants.{Spent};

    ghost both = { both };

    ghost spent = { Spent };
}
