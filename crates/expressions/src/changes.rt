//! What changes variables, and when they were last changed.
ghost use Rattle.std.specs.Prelude.{◌≡◌, OnOk, if◌then◌else◌};
ghost use Rattle.expressions.specs.Expressions.{changes, is_defined, is_global, is_same_variable};
ghost use Rattle.expressions.specs.Tracking.{IsUpTo, Passed, is_current, last_store, untouched};

use indexmap::IndexMap;
use ir_types::module::Module;
use ir_types::syntax::{Kind, Variable};
use mc_num::NoMemory;
use std::alloc::Global;
use std::marker::Model;

/// Whether the function of this number has blocks.
pub fn is_defined(module: &Module<'_>, callee: u32) -> bool
    ensures { result ≡ is_defined «module».now callee }
{
    match module.functions().get(callee as usize) {
        Some(function) => function.blocks.len() != 0,
        None => false,
    }
}

/// Whether a variable is a global.
pub fn is_global(variable: Variable) -> bool
    ensures { result ≡ is_global variable }
{
    matches!(variable, Variable::Global(_))
}

/// Whether an instruction stores to the variable, or may change it by a call.
pub fn may_change(module: &Module<'_>, variable: Variable, kind: &Kind) -> bool
    ensures { result ≡ changes «module».now variable kind.now }
{
    match kind {
        Kind::Store(_, stored) => *stored == variable,
        Kind::Call(callee, _) => is_global(variable) && is_defined(module, *callee),
        Kind::Load(_) | Kind::Compute(..) => false,
    }
}

/// The last store to each variable that has one, and the last call of a defined function, by the numbers of points.
#[derive(Drop)]
pub struct Changes {
    stores: IndexMap<Variable, usize>,
    call: usize,
}

impl Model for Changes {
    ghost use Rattle.expressions.specs.Tracking.{Tracked};

    ghost Value = { Tracked };

    ghost view = { λ c. record { stores = c.stores.entries; call = c.call } };
}

impl Changes {
    /// No changes. It takes no memory.
    pub fn new(alloc: Global) -> Changes
        ensures { result ≡ untouched }
    {
        Changes {
            stores: IndexMap::new(alloc),
            call: 0,
        }
    }

    /// The point of the last store to a variable, or 0.
    fn last_store(&self, variable: Variable) -> usize
        ensures { result ≡ last_store self.now variable }
    {
        match self.stores.get(&variable) {
            Some(point) => *point,
            None => 0,
        }
    }

    /// Whether nothing may have changed the variable behind the point.
    pub fn is_current(&self, variable: Variable, point: usize) -> bool
        ensures { result ≡ is_current self.now variable point }
    {
        self.last_store(variable) <= point && (self.call <= point || !is_global(variable))
    }

    fn store(&mut self, variable: Variable, point: usize) -> Result<(), NoMemory>
        ensures stores { OnOk result ((w : Variable) → last_store self.new w ≡ (if is_same_variable variable w then point else last_store self.old w)) }
        ensures call { OnOk result (self.new.call ≡ self.old.call) }
    {
        self.stores.insert(variable, point)?;
        Ok(())
    }

    fn call_defined(&mut self, point: usize)
        ensures { self.new ≡ record self.old { call = point } }
    {
        self.call = point;
    }

    fn call(&mut self, module: &Module<'_>, callee: u32, point: usize)
        ensures { self.new ≡ (if is_defined «module».now callee then record self.old { call = point } else self.old) }
    {
        if is_defined(module, callee) {
            self.call_defined(point);
        }
    }

    /// Notes what the instruction at a point changes, behind those at earlier points.
    pub fn pass(&mut self, module: &Module<'_>, kind: &Kind, point: usize) -> Result<(), NoMemory>
        requires { IsUpTo self.old point }
        ensures passed { OnOk result (Passed «module».now kind.now point self.old self.new) }
        ensures up_to { OnOk result (IsUpTo self.new point) }
    {
        match kind {
            Kind::Store(_, variable) => self.store(*variable, point),
            Kind::Call(callee, _) => {
                self.call(module, *callee, point);
                Ok(())
            }
            Kind::Load(_) | Kind::Compute(..) => Ok(()),
        }
    }
}
