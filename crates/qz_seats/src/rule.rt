//! The rule of the table, and what each kind of step tells the pass that makes it.
ghost use Rattle.qz_seats.specs.SeatRule.{IsRuled, terms_of};
ghost use Rattle.qz_seats.specs.Steps.{IsDraw, IsLook, IsLift, IsSettleOne, IsSettleSame};
ghost use Rattle.qz_seats.specs.Views.{after_split, first_view, newcomer, joined, nobody};

use crate::journal::Journal;
use crate::view::View;
use atomic_table::{Join, Play, Split, TableRule};
use std::snapshot::Snapshot;

// What a table is opened with.
#[derive(Drop)]
pub struct Opening<V> {
    pub limit: u64,
    pub seats: u64,
    pub values: Snapshot<Vec<V>>,
}

pub struct Rule;

impl<V: Journal> TableRule<Option<V>, View, Opening<V>> for Rule {
    ghost holds = { λ key. IsRuled V.journal V.names V.mark (terms_of V.journal V.names V.mark key.limit key.seats key.values.value.items) };

    ghost first = { λ key. first_view (terms_of V.journal V.names V.mark key.limit key.seats key.values.value.items) };
}

pub struct Draw;

impl<V> Play<Option<V>, View> for Draw {
    ghost then = { λ _. IsDraw };
}

pub struct Look;

impl<V> Play<Option<V>, View> for Look {
    ghost then = { λ _ m _. IsLook m };
}

pub struct Lifting;

impl<V: Journal> Play<Option<V>, View> for Lifting {
    ghost then = { λ step. IsLift V.journal V.names V.mark step.word };
}

pub struct SettleOne;

impl<V: Journal> Play<Option<V>, View> for SettleOne {
    ghost then = { λ _ m _. IsSettleOne V.journal m };
}

pub struct SettleSame;

impl<V> Play<Option<V>, View> for SettleSame {
    ghost then = { λ _ m _. IsSettleSame m };
}

pub struct Share;

impl Split<View> for Share {
    ghost left = { after_split };

    ghost right = { newcomer };
}

pub struct Both;

impl Join<View> for Both {
    ghost both = { joined };

    ghost spent = { nobody };
}
