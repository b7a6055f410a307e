//! Parts of the JSON form, which are read and written alike.
ghost use Rattle.std.specs.Prelude.{◌≡◌, ℕ, List, [], Some, None, map, IfOk, IfErr, option_map, option_and_then};
ghost use Rattle.std.specs.List.{AllZip};
ghost use Rattle.serde_json.specs.Data.{Data};
ghost use Rattle.serde_json.specs.Find.{get};
ghost use Rattle.serde_json.specs.View.{view};
ghost use Rattle.certificate.specs.Values.{list_in};
ghost use Rattle.certificate.specs.Text.{list_data};
ghost use Rattle.certificate.specs.Holds.{HoldsList, MayHoldList};
ghost use Rattle.certificate.specs.Parts.{Part as SpecPart, first_wrong, items_parts, needed_parts, optional_parts, Explains};
ghost use Rattle.certificate.specs.declared.path.CertPath.{CertPath};

use crate::path::{CertError, CertPath};
use ir_types::items::Items;
use serde_json::Value;
use std::alloc::{AllocError, Global};

/// What is written as a JSON value.
pub(crate) trait ToJson {
    ghost written: { Self → Data };

    fn to_value(&self, alloc: Global) -> Result<Value, AllocError>
        ensures { IfOk result (λ value. view value ≡ written self.now) };
}

/// What is read from a JSON value that is the item of a list.
pub(crate) trait FromJson: Sized {
    ghost holds: { Data → Self → Type 0 };

    ghost item_place: { CertPath → ℕ → CertPath };

    ghost parts: { CertPath → Data → List SpecPart };

    /// The place of the item at an index, where `place` is that of the list.
    fn place_of_item(place: CertPath, index: u64) -> CertPath
        ensures { result ≡ item_place place index };

    fn from_value(alloc: Global, value: &Value, place: CertPath) -> Result<Self, CertError>
        ensures ok { IfOk result (λ part. holds (view value.now) part) }
        ensures right { IfOk result (λ _. first_wrong (parts place (view value.now)) ≡ None) }
        ensures err { IfErr result (Explains (parts place (view value.now))) };
}

/// The list of the items' values.
pub(crate) fn list_value<T: ToJson>(alloc: Global, items: &[T]) -> Result<Value, AllocError>
    ensures { IfOk result (λ value. view value ≡ list_data T.ToJson.written items.now) }
{
    let mut values = Vec::new(alloc);
    for item in items {
        values.push(item.to_value(alloc)?)?;
    }
    Ok(Value::Array(values))
}

/// The items of a list, or the first wrong part in it.
pub(crate) fn read_items<T: FromJson + Drop>(
    alloc: Global,
    values: &[Value],
    place: CertPath,
) -> Result<Items<T>, CertError>
    ensures ok { IfOk result (λ items. AllZip T.FromJson.holds (map view values.now) items) }
    ensures right { IfOk result (λ _. first_wrong
        (items_parts T.FromJson.item_place T.FromJson.parts place 0 (map view values.now)) ≡ None) }
    ensures err { IfErr result (Explains
        (items_parts T.FromJson.item_place T.FromJson.parts place 0 (map view values.now))) }
{
    let mut items = Vec::new(alloc);
    for (index, value) in values.iter().enumerate() {
        let item = T::from_value(alloc, value, T::place_of_item(place, index as u64))?;
        items.push(item)?;
    }
    Ok(Items::from(items))
}

/// The list at a key.
pub(crate) fn list_at<'a>(value: &'a Value, key: &str) -> Option<&'a Vec<Value>>
    ensures { option_map (λ values. map view values.now.items) result
        ≡ option_and_then list_in (get key.now (view value.now)) }
{
    match value.get(key) {
        Some(member) => member.as_array(),
        None => None,
    }
}

/// The items of the list that has to be at a key.
pub(crate) fn read_list<T: FromJson + Drop>(
    alloc: Global,
    value: &Value,
    key: &str,
    place: CertPath,
) -> Result<Items<T>, CertError>
    ensures ok { IfOk result (λ items. HoldsList T.FromJson.holds key.now (view value.now) items) }
    ensures right { IfOk result (λ _. first_wrong
        (needed_parts T.FromJson.item_place T.FromJson.parts place key.now (view value.now)) ≡ None) }
    ensures err { IfErr result (Explains
        (needed_parts T.FromJson.item_place T.FromJson.parts place key.now (view value.now))) }
{
    match list_at(value, key) {
        Some(values) => read_items(alloc, values.as_slice(), place),
        None => Err(CertError::Form(place)),
    }
}

/// The items of the list at a key, if something is there.
pub(crate) fn read_optional_list<T: FromJson + Drop>(
    alloc: Global,
    value: &Value,
    key: &str,
    place: CertPath,
) -> Result<Option<Items<T>>, CertError>
    ensures ok { IfOk result (λ items. MayHoldList T.FromJson.holds key.now (view value.now) items) }
    ensures right { IfOk result (λ _. first_wrong
        (optional_parts T.FromJson.item_place T.FromJson.parts place key.now (view value.now)) ≡ None) }
    ensures err { IfErr result (Explains
        (optional_parts T.FromJson.item_place T.FromJson.parts place key.now (view value.now))) }
{
    if value.get(key).is_none() {
        return Ok(None);
    }
    Ok(Some(read_list(alloc, value, key, place)?))
}
