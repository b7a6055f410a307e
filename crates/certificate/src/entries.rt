//! Entries, and the list of a function's entries.
ghost use Rattle.std.specs.Prelude.{◌≡◌, OnOk};
ghost use Rattle.serde_json.specs.Data.{put as with_member};
ghost use Rattle.serde_json.specs.View.{members_view};
ghost use Rattle.certificate.specs.Text.{list_data, entry_data, function_data};
ghost use Rattle.certificate.specs.Holds.{HoldsEntry, HoldsFunction};
ghost use Rattle.certificate.specs.Parts.{at_expression, at_function, entry_parts, function_and_entries_parts};

use crate::part::{FromJson, ToJson, list_value, read_list, read_optional_list};
use crate::path::{CertError, CertKey, CertPath};
use crate::types::Entry;
use ir_types::items::Items;
use placement::Placement;
use serde_json::{Map, Value, put};
use std::alloc::{AllocError, Global};

impl ToJson for Entry {
    ghost written = { entry_data };

    fn to_value(&self, alloc: Global) -> Result<Value, AllocError> {
        let mut members = Map::new(alloc);
        if let Some(flow) = &self.flow {
            put_list(alloc, &mut members, "flow", flow.as_slice())?;
        }
        put_list(
            alloc,
            &mut members,
            "inserted",
            self.placement.inserted.as_slice(),
        )?;
        put_list(alloc, &mut members, "kept", self.placement.kept.as_slice())?;
        if let Some(ranks) = &self.ranks {
            put_list(alloc, &mut members, "ranks", ranks.as_slice())?;
        }
        Ok(Value::Object(members))
    }
}

impl FromJson for Entry {
    ghost holds = { HoldsEntry };

    ghost item_place = { at_expression };

    ghost parts = { entry_parts };

    fn place_of_item(place: CertPath, index: u64) -> CertPath {
        CertPath {
            expression: Some(index),
            ..place
        }
    }

    fn from_value(alloc: Global, value: &Value, place: CertPath) -> Result<Entry, CertError> {
        let flow = read_optional_list(
            alloc,
            value,
            "flow",
            CertPath {
                key: CertKey::Flow,
                ..place
            },
        )?;
        let inserted = read_list(
            alloc,
            value,
            "inserted",
            CertPath {
                key: CertKey::Inserted,
                ..place
            },
        )?;
        let kept = read_list(
            alloc,
            value,
            "kept",
            CertPath {
                key: CertKey::Kept,
                ..place
            },
        )?;
        let ranks = read_optional_list(
            alloc,
            value,
            "ranks",
            CertPath {
                key: CertKey::Ranks,
                ..place
            },
        )?;
        let placement = Placement { inserted, kept };
        Ok(Entry {
            placement,
            flow,
            ranks,
        })
    }
}

/// The list of a function's entries.
impl ToJson for Items<Entry> {
    ghost written = { function_data };

    fn to_value(&self, alloc: Global) -> Result<Value, AllocError> {
        let mut members = Map::new(alloc);
        put_list(alloc, &mut members, "expressions", self.as_slice())?;
        Ok(Value::Object(members))
    }
}

impl FromJson for Items<Entry> {
    ghost holds = { HoldsFunction };

    ghost item_place = { at_function };

    ghost parts = { function_and_entries_parts };

    fn place_of_item(place: CertPath, index: u64) -> CertPath {
        CertPath {
            function: Some(index),
            ..place
        }
    }

    fn from_value(
        alloc: Global,
        value: &Value,
        place: CertPath,
    ) -> Result<Items<Entry>, CertError> {
        read_list(
            alloc,
            value,
            "expressions",
            CertPath {
                key: CertKey::Expressions,
                ..place
            },
        )
    }
}

/// Sets the list at a key.
pub(crate) fn put_list<T: ToJson>(
    alloc: Global,
    members: &mut Map<String, Value>,
    key: &str,
    items: &[T],
) -> Result<(), AllocError>
    ensures { OnOk result (members_view members.new.entries
        ≡ with_member key.now (list_data T.ToJson.written items.now) (members_view members.old.entries)) }
{
    let list = list_value(alloc, items)?;
    put(members, alloc, key, list)
}
