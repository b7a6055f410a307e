//! The counts of a run as it goes on.
ghost use Rattle.std.specs.Prelude.{◌≡◌, ◌+◌, ◌-◌, ◌^◌, ◌<◌, ◌++◌, ◌∷◌, [], ℕ, List, length, min, replicate, slice_get, slice_index, slice_set, IfOk, OnOk};
ghost use Rattle.machines.specs.declared.events.Event.{Event};
ghost use Rattle.ir_types.specs.Program.{Program};
ghost use Rattle.interp.specs.Tallies.{starts_from, slots_in, IsEventOf};

use flow_graph::slots_len;
use ir_types::items::Items;
use ir_types::module::Module;
use ir_types::syntax::{Block, Function};
use machines::Event;
use mc_num::NoMemory;
use profile::{FnCounts, Profile};
use std::alloc::Global;

/// Where the counts of a function stand.
#[derive(Debug, Drop)]
pub(crate) struct Places {
    /// How many functions before it are defined.
    pub index: usize,
    /// For each block, how many slots the blocks before it have.
    pub starts: Items<usize>,
}

/// How often a run entered each function and took each slot.
#[derive(Debug, Drop)]
pub(crate) struct Tally {
    pub counts: Vec<FnCounts>,
    pub places: Vec<Places>,
}

fn add_zeros(slots: &mut Items<u64>, number: usize) -> Result<(), NoMemory>
    ensures { OnOk result (slots.new ≡ slots.old ++ replicate number 0) }
{
    for _ in 0..number {
        slots.push(0)?;
    }
    Ok(())
}

// Where the slots of each block begin, and a count of 0 for each slot.
fn empty_slots(alloc: Global, blocks: &[Block<'_>]) -> Result<(Items<usize>, Items<u64>), NoMemory>
    ensures starts { IfOk result (λ r. r.0 ≡ starts_from 0 blocks.now) }
    ensures slots { IfOk result (λ r. r.1 ≡ replicate (slots_in blocks.now) 0) }
{
    let mut starts = Items::new(alloc);
    let mut slots = Items::new(alloc);
    for block in blocks {
        starts.push(slots.len())?;
        add_zeros(&mut slots, slots_len(&block.term))?;
    }
    Ok((starts, slots))
}

// The place of a block's slot among all slots of its function.
fn slot_place(starts: &[usize], slots: &[u64], block: u32, slot: u32) -> usize
    requires block { block < length starts.now }
    requires slot { slice_index starts.now block + slot < length slots.now }
    ensures { result ≡ slice_index starts.now block + slot }
{
    starts[block as usize] + slot as usize
}

// One more, where that fits.
fn raised(count: u64) -> u64
    ensures { result ≡ min (count + 1) (2 ^ 64 - 1) }
{
    count.saturating_add(1)
}

fn raise_at(counts: &mut Items<u64>, place: usize)
    ensures { (count : ℕ) → slice_get counts.old place ≡ Some count → counts.new ≡ slice_set counts.old place (min (count + 1) (2 ^ 64 - 1)) }
{
    if let Some(count) = counts.get(place).copied() {
        counts.set(place, raised(count));
    }
}

impl Tally {
    ghost use Rattle.interp.specs.TallyOf.{IsTally, CanAdd, first_counts};

    /// The counts before the first step of a run that begins with the function of this number. `NoMemory` where an allocation was refused.
    pub(crate) fn new(alloc: Global, program: &Module<'_>, main: u32) -> Result<Tally, NoMemory>
        ensures { IfOk result (λ tally. IsTally program.now main [] tally) }
    {
        let mut tally = Tally {
            counts: Vec::new(alloc),
            places: Vec::new(alloc),
        };
        for (number, function) in program.functions().iter().enumerate() {
            tally.add_function(alloc, function, number == main as usize)?;
        }
        Ok(tally)
    }

    // Counts of 0 for one function more, but for the first entry of main.
    fn add_function(
        &mut self,
        alloc: Global,
        function: &Function<'_>,
        is_main: bool,
    ) -> Result<(), NoMemory>
        ensures counts { OnOk result (self.new.counts.items ≡ self.old.counts.items ++ first_counts is_main function.now) }
        ensures places { OnOk result (self.new.places.items ≡ self.old.places.items ++ record { index = length self.old.counts.items; starts = starts_from 0 function.now.blocks } ∷ []) }
    {
        let (starts, slots) = empty_slots(alloc, function.blocks.as_slice())?;
        let index = self.counts.len();
        self.places.push(Places { index, starts })?;
        if function.blocks.len() == 0 {
            return Ok(());
        }
        let entry = u64::from(is_main);
        self.counts.push(FnCounts { entry, slots })?;
        Ok(())
    }

    fn enter(&mut self, function: u32)
        requires { CanAdd (Event.Entered function) self.old }
        ensures { (m : Program) (main : ℕ) (events : List Event) → IsTally m main events self.old → IsEventOf m (Event.Entered function) → length events < 2 ^ 63 → IsTally m main (events ++ Event.Entered function ∷ []) self.new }
    {
        let index = self.places[function as usize].index;
        let counts = &mut self.counts[index];
        counts.entry = raised(counts.entry);
    }

    fn take(&mut self, function: u32, block: u32, slot: u32)
        requires { CanAdd (Event.Took function block slot) self.old }
        ensures { (m : Program) (main : ℕ) (events : List Event) → IsTally m main events self.old → IsEventOf m (Event.Took function block slot) → length events < 2 ^ 63 → IsTally m main (events ++ Event.Took function block slot ∷ []) self.new }
    {
        let places = &self.places[function as usize];
        let counts = &mut self.counts[places.index];
        let place = slot_place(
            places.starts.as_slice(),
            counts.slots.as_slice(),
            block,
            slot,
        );
        raise_at(&mut counts.slots, place);
    }

    /// Counts an event. No memory.
    pub(crate) fn add(&mut self, event: Event)
        requires { CanAdd event self.old }
        ensures { (m : Program) (main : ℕ) (events : List Event) → IsTally m main events self.old → IsEventOf m event → length events < 2 ^ 63 → IsTally m main (events ++ event ∷ []) self.new }
    {
        match event {
            Event::Entered(function) => self.enter(function),
            Event::Took(function, block, slot) => self.take(function, block, slot),
            Event::Went | Event::Wants | Event::Shows(_) | Event::Returned(_) | Event::Trapped(_) =>
                {}
        }
    }

    /// The counts as a profile. No memory.
    pub(crate) fn into_profile(self) -> Profile
        ensures { result.functions ≡ self.counts.items }
    {
        let Tally { counts, places: _ } = self;
        Profile {
            functions: Items::from(counts),
        }
    }
}
