//! What names mean, by a table.
ghost use Rattle.std.specs.Prelude.{◌≡◌, OnOk};
ghost use Rattle.ir_types.specs.Definitions.{meaning_of, nothing, define, define_some, name_of, name_problem, is_counted, is_number, is_other_number, symbol_name, with_meaning};
ghost use Rattle.ir_uses.specs.Answers.{IsAnswer};

use crate::error::{CheckError, refuse_if};
use indexmap::IndexMap;
use ir_types::name::{Name, Spelling};
use ir_types::rules::{Meaning, Rule};
use ir_types::span::At;
use std::alloc::{AllocError, Global};
use std::marker::Model;

/// Names with their first definitions, and the next number.
#[derive(Drop)]
pub struct Definitions<'a> {
    meanings: IndexMap<Name<'a>, Meaning>,
    next: u32,
}

impl<'a> Model for Definitions<'a> {
    ghost use Rattle.ir_types.specs.Definitions.{Defined};

    ghost Value = { Defined };

    ghost view = { λ d. record { meanings = d.meanings.entries; next = d.next } };
}

impl<'a> Definitions<'a> {
    /// No definition.
    pub fn new(alloc: Global) -> Definitions<'a>
        ensures { result ≡ nothing }
    {
        Definitions {
            meanings: IndexMap::new(alloc),
            next: 0,
        }
    }

    /// What a name means.
    pub fn meaning_of(&self, name: &Name<'a>) -> Option<Meaning>
        ensures { result ≡ meaning_of self.now name.now }
    {
        match self.meanings.get(name) {
            Some(meaning) => Some(*meaning),
            None => None,
        }
    }

    /// The name of a definition: the written one, or the next number.
    pub fn name_of(&self, written: &Option<At<Name<'a>>>) -> Name<'a>
        ensures { result ≡ name_of self.now written.now }
    {
        match written {
            Some(written) => written.item.copied(),
            None => Name::Number(self.next),
        }
    }

    fn add(&mut self, name: Name<'a>, meaning: Meaning) -> Result<(), AllocError>
        ensures { OnOk result (self.new ≡ record { meanings = with_meaning self.old.meanings name.entry meaning; next = self.old.next }) }
    {
        // A second definition of a name is rare, so the first is put back rather than looked for.
        let again = name.copied();
        if let Some(first) = self.meanings.insert(name, meaning)? {
            self.meanings.insert(again, first)?;
        }
        Ok(())
    }

    /// One definition more, of a thing with this name or the next number.
    pub fn define(
        &mut self,
        written: &Option<At<Name<'a>>>,
        meaning: Meaning,
    ) -> Result<(), AllocError>
        ensures { OnOk result (self.new ≡ define self.old written.now meaning) }
    {
        let name = self.name_of(written);
        self.add(name, meaning)?;
        if is_counted(written) {
            self.next = self.next.saturating_add(1);
        }
        Ok(())
    }

    /// One definition more, where there is one.
    pub fn define_some(
        &mut self,
        written: &Option<At<Name<'a>>>,
        meaning: Option<Meaning>,
    ) -> Result<(), AllocError>
        ensures { OnOk result (self.new ≡ define_some self.old written.now meaning) }
    {
        match meaning {
            Some(meaning) => self.define(written, meaning),
            None => Ok(()),
        }
    }

    fn is_other_number(&self, name: &Name<'a>) -> bool
        ensures { result ≡ is_other_number self.now name.now }
    {
        match name {
            Name::Number(number) => *number != self.next,
            _ => false,
        }
    }

    /// Refuses the written name of one definition more, if it is a second one or not the next number.
    pub fn check_name(&self, written: &Option<At<Name<'a>>>) -> Result<(), CheckError>
        ensures { IsAnswer result (name_problem self.now written.now) }
    {
        if let Some(written) = written {
            refuse_if(
                self.meaning_of(&written.item).is_some(),
                Rule::Duplicate,
                written.span,
            )?;
            return refuse_if(
                self.is_other_number(&written.item),
                Rule::BadNumber,
                written.span,
            );
        }
        Ok(())
    }
}

/// A name of the tree, as the names of a function are written.
pub fn symbol_name<'a>(name: &At<Spelling<'a>>) -> Option<At<Name<'a>>>
    ensures { result ≡ symbol_name name.now }
{
    Some(At {
        item: Name::Text(name.item.copied()),
        span: name.span,
    })
}

fn is_counted(written: &Option<At<Name<'_>>>) -> bool
    ensures { result ≡ is_counted written.now }
{
    match written {
        Some(written) => is_number(&written.item),
        None => true,
    }
}

fn is_number(name: &Name<'_>) -> bool
    ensures { result ≡ is_number name.now }
{
    matches!(name, Name::Number(_))
}
