//! The rule of the table, and what its steps report.
ghost use Rattle.std.specs.Prelude.{[], Option, None};
ghost use Rattle.call_grammar.specs.Calls.{Call};
ghost use Rattle.shared_words.specs.Rules.{TableInvariant, initial_view, reads, writes, sets, stores_number, loads_number, resets, looks, joined};

use crate::run_setup::RunSetup;
use crate::view::View;
use atomic_table::{Join, Play, Split, TableRule};
use std::marker::{Brand, PhantomData};

/// The rule of running peers (`specs/Rules`).
pub struct Rule;

impl TableRule<u8, View, RunSetup> for Rule {
    ghost holds = { TableInvariant };

    ghost first = { initial_view };
}

/// The call that an access begins, if it begins one. Each caller picks it.
pub trait Begins {
    ghost call: { Option Call };
}

impl Begins for Brand {
    ghost call = { None };
}

pub(crate) struct Reads<B: Begins>(PhantomData<B>);

impl<B: Begins> Play<u8, View> for Reads<B> {
    ghost then = { reads B.call };
}

pub(crate) struct Writes<B: Begins>(PhantomData<B>);

impl<B: Begins> Play<u8, View> for Writes<B> {
    ghost then = { writes B.call };
}

pub(crate) struct Sets<B: Begins>(PhantomData<B>);

impl<B: Begins> Play<u8, View> for Sets<B> {
    ghost then = { sets B.call };
}

/// A store of the own session word.
pub(crate) struct StoresNumber;

impl Play<u8, View> for StoresNumber {
    ghost then = { stores_number };
}

/// A load of the other's session word.
pub(crate) struct LoadsNumber;

impl Play<u8, View> for LoadsNumber {
    ghost then = { loads_number };
}

/// The store of a reset.
pub(crate) struct Resets;

impl Play<u8, View> for Resets {
    ghost then = { resets };
}

/// A look.
pub(crate) struct Looks;

impl Play<u8, View> for Looks {
    ghost then = { looks };
}

/// A call picks the peer at which the view is cut.
impl Split<View> for Brand {
    ghost left = { λ v. v };

    ghost right = { λ v. v };
}

pub(crate) struct Both;

impl Join<View> for Both {
    ghost both = { joined };

    ghost spent = { record { from = 0; lists = [] } };
}

/// Each call picks what it reports.
impl Play<u8, View> for Brand {
    ghost then = { λ _ _ _ _. Unit {0} };
}
