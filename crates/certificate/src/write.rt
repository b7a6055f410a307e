//! From a certificate to bytes.
ghost use Rattle.std.specs.Prelude.{◌≡◌, IfOk};
ghost use Rattle.serde_json.specs.View.{view};
ghost use Rattle.certificate.specs.Text.{json, certificate_data};

use crate::entries::put_list;
use crate::types::Certificate;
use mc_num::NoMemory;
use serde_json::{Map, Value, put};
use std::alloc::{AllocError, Global};

/// The certificate in compact JSON (RFC 8259), its keys in byte order, without a line feed at the end. `NoMemory` where
/// an allocation was refused.
pub fn to_json(alloc: Global, certificate: &Certificate) -> Result<Vec<u8>, NoMemory>
    ensures { IfOk result (λ bytes. bytes.items ≡ json certificate.now) }
{
    let value = certificate_value(alloc, certificate)?;
    Ok(value.to_vec(alloc)?)
}

fn certificate_value(alloc: Global, certificate: &Certificate) -> Result<Value, AllocError>
    ensures { IfOk result (λ value. view value ≡ certificate_data certificate.now) }
{
    let mut members = Map::new(alloc);
    put_list(
        alloc,
        &mut members,
        "functions",
        certificate.functions.as_slice(),
    )?;
    put(&mut members, alloc, "version", Value::from(1u64))?;
    Ok(Value::Object(members))
}
