//! What a block's new text is made from.
ghost use Rattle.std.specs.Prelude.{◌≡◌, ◌<◌, ◌+◌, All, Some, length, slice_get};
ghost use Rattle.point_graph.specs.Graph.{Entry, Inside, Slot};
ghost use Rattle.changes.specs.Changed.{action_of, inserted_on, number_of_edge};

use changes::{Action, Changes};
use expressions::{Expr, Table};
use std::alloc::Global;
use std::marker::Model;

/// The expressions and the changes of a function, and the number of its first temporary as a variable. Contracts see it
/// as these.
#[derive(Drop)]
pub struct Source<'t, 'm, 'a> {
    pub alloc: Global,
    pub table: &'t Table<'m, 'a>,
    pub changes: &'t Changes,
    pub vars: u32,
}

impl<'t, 'm, 'a> Model for Source<'t, 'm, 'a> {
    ghost use Rattle.block_text.specs.ByChanges.{AreBounded, Given};

    ghost Value = { Given };

    ghost view = { λ s. record { exprs = s.table.now.exprs; changes = s.changes.now; vars = s.vars } };

    ghost invariant = { λ s. AreBounded (record { exprs = s.table.now.exprs; changes = s.changes.now; vars = s.vars }) };
}

/// The temporaries whose expressions are inserted on the edge to a place of a block.
fn inside(changes: &Changes, block: u32, place: usize) -> &[u32]
    ensures { result.now ≡ inserted_on changes.now (Inside block place) }
{
    match changes.blocks.get(block as usize) {
        Some(changes) => match changes.inside.get(place) {
            Some(temps) => temps.as_slice(),
            None => &[],
        },
        None => &[],
    }
}

/// The temporaries whose expressions are inserted on a slot of a block.
fn on_slot(changes: &Changes, block: u32, slot: u32) -> &[u32]
    ensures { result.now ≡ inserted_on changes.now (Slot block slot) }
{
    match changes.blocks.get(block as usize) {
        Some(changes) => match changes.slots.get(slot as usize) {
            Some(temps) => temps.as_slice(),
            None => &[],
        },
        None => &[],
    }
}

impl<'t, 'm, 'a> Source<'t, 'm, 'a> {
    /// The number of the prefix of made names.
    pub fn prefix(&self) -> u32
        ensures { result ≡ self.now.changes.prefix }
    {
        self.changes.prefix
    }

    /// The variable that a temporary is.
    pub fn variable(&self, temp: u32) -> u32
        requires { temp < length self.now.changes.temps }
        ensures { result ≡ self.now.vars + temp }
    {
        self.vars + temp
    }

    /// The number of a temporary's expression.
    pub fn number(&self, temp: u32) -> u32
        requires { temp < length self.now.changes.temps }
        ensures there { slice_get self.now.changes.temps temp ≡ Some result }
        ensures within { result < length self.now.exprs }
    {
        self.changes.temps.as_slice()[temp as usize]
    }

    /// The expression of this number.
    pub fn expr(&self, number: u32) -> &Expr
        requires { number < length self.now.exprs }
        ensures { slice_get self.now.exprs number ≡ Some result.now }
    {
        self.table.expr(number)
    }

    /// The temporaries whose expressions are inserted on the edge from Start.
    pub fn on_entry(&self) -> &[u32]
        ensures temps { result.now ≡ inserted_on self.now.changes Entry }
        ensures there { All (λ j. j < length self.now.changes.temps) result.now }
    {
        self.changes.entry.as_slice()
    }

    /// The temporaries whose expressions are inserted on the edge to a place of a block.
    pub fn inside(&self, block: u32, place: usize) -> &[u32]
        ensures temps { result.now ≡ inserted_on self.now.changes (Inside block place) }
        ensures there { All (λ j. j < length self.now.changes.temps) result.now }
    {
        inside(self.changes, block, place)
    }

    /// The temporaries whose expressions are inserted on a slot of a block.
    pub fn on_slot(&self, block: u32, slot: u32) -> &[u32]
        ensures temps { result.now ≡ inserted_on self.now.changes (Slot block slot) }
        ensures there { All (λ j. j < length self.now.changes.temps) result.now }
    {
        on_slot(self.changes, block, slot)
    }

    /// The number of the edge to a place of a block, where something is inserted on it.
    pub fn inside_number(&self, block: u32, place: usize) -> u32
        requires { 0 < length (inserted_on self.now.changes (Inside block place)) }
        ensures { result ≡ number_of_edge self.now.changes (Inside block place) }
    {
        match self.changes.blocks.get(block as usize) {
            Some(changes) => changes.first_edge + place as u32,
            None => 0,
        }
    }

    /// The number of a slot of a block, where something is inserted on it.
    pub fn slot_number(&self, block: u32, slot: u32) -> u32
        requires { 0 < length (inserted_on self.now.changes (Slot block slot)) }
        ensures { result ≡ number_of_edge self.now.changes (Slot block slot) }
    {
        match self.changes.blocks.get(block as usize) {
            Some(changes) => changes.first_slot + slot,
            None => 0,
        }
    }

    /// What becomes of an instruction of a block.
    pub fn action(&self, block: u32, place: usize) -> Action
        ensures { result ≡ action_of self.now.changes block place }
    {
        match self.changes.blocks.get(block as usize) {
            Some(changes) => match changes.actions.get(place) {
                Some(action) => *action,
                None => Action::Stays,
            },
            None => Action::Stays,
        }
    }
}
