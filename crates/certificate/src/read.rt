//! From bytes to a certificate.
ghost use Rattle.std.specs.Prelude.{◌≡◌, Some, None, map, option_and_then, IfOk, IfErr, MatchResult};
ghost use Rattle.serde_json.specs.Find.{as_object};
ghost use Rattle.serde_json.specs.View.{view};
ghost use Rattle.std.specs.List.{AllZip};
ghost use Rattle.certificate.specs.Holds.{Holds, HoldsFunction, HoldsCertificate, version_in};
ghost use Rattle.certificate.specs.Parts.{first_wrong, top as spec_top, at_function, function_parts, items_parts, functions_parts, certificate_parts, text_parts, Explains};
ghost use Rattle.certificate.specs.declared.path.CertKey.TheVariants.{Functions};
ghost use Rattle.certificate.specs.declared.path.CertError.TheVariants.{NoMemory};
ghost use Rattle.certificate.specs.declared.types.Certificate.{Certificate};

use crate::part::{list_at, read_items};
use crate::path::{CertError, CertKey, CertPath};
use crate::types::Certificate;
use serde_json::Value;
use std::alloc::Global;

/// The certificate that the bytes hold. Keys that a certificate doesn't have are passed over.
///
/// `Form` where they hold none, with the place of the first wrong part: the whole, `version`, `functions`, then the list
/// of each function, then each entry's keys in byte order with their items. `NoMemory` where an allocation was refused.
pub fn from_json(alloc: Global, bytes: &[u8]) -> Result<Certificate, CertError>
    ensures ok { IfOk result (Holds bytes.now) }
    ensures err { IfErr result (Explains (text_parts bytes.now)) }
    ensures exact { (certificate : Certificate) → Holds bytes.now certificate
        → MatchResult result (λ found. found ≡ certificate) (λ error. error ≡ NoMemory) }
{
    match Value::from_slice(alloc, bytes) {
        Ok(value) => read_certificate(alloc, &value),
        Err(error) => if error.is_memory() {
            Err(CertError::NoMemory)
        } else {
            Err(CertError::Form(top(CertKey::Whole)))
        },
    }
}

fn read_certificate(alloc: Global, value: &Value) -> Result<Certificate, CertError>
    ensures ok { IfOk result (HoldsCertificate (view value.now)) }
    ensures right { IfOk result (λ _. first_wrong (certificate_parts (view value.now)) ≡ None) }
    ensures err { IfErr result (Explains (certificate_parts (view value.now))) }
{
    if !value.is_object() {
        return Err(CertError::Form(top(CertKey::Whole)));
    }
    if version(value) != Some(1) {
        return Err(CertError::Form(top(CertKey::Version)));
    }
    match list_at(value, "functions") {
        Some(functions) => read_functions(alloc, functions.as_slice()),
        None => Err(CertError::Form(top(CertKey::Functions))),
    }
}

/// The number at the key `version`.
fn version(value: &Value) -> Option<u64>
    ensures { result ≡ version_in (view value.now) }
{
    match value.get("version") {
        Some(version) => version.as_u64(),
        None => None,
    }
}

fn read_functions(alloc: Global, functions: &[Value]) -> Result<Certificate, CertError>
    ensures ok { IfOk result (λ certificate. AllZip HoldsFunction (map view functions.now) certificate.functions) }
    ensures right { IfOk result (λ _. first_wrong (functions_parts (map view functions.now)) ≡ None) }
    ensures err { IfErr result (Explains (functions_parts (map view functions.now))) }
{
    match function_without_list(functions) {
        Some(place) => Err(CertError::Form(place)),
        None => {
            let functions = read_items(alloc, functions, top(CertKey::Functions))?;
            Ok(Certificate { functions })
        }
    }
}

/// The place of the first function that has no list of entries.
fn function_without_list(functions: &[Value]) -> Option<CertPath>
    ensures { result ≡ first_wrong
        (items_parts at_function function_parts (spec_top Functions) 0 (map view functions.now)) }
{
    for (index, function) in functions.iter().enumerate() {
        if list_at(function, "expressions").is_none() {
            return Some(CertPath {
                function: Some(index as u64),
                expression: None,
                key: CertKey::Expressions,
                index: None,
            });
        }
    }
    None
}

fn top(key: CertKey) -> CertPath
    ensures { result ≡ spec_top key }
{
    CertPath {
        function: None,
        expression: None,
        key,
        index: None,
    }
}
