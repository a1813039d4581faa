//! Writing an envelope as a JSON value.

ghost use Rattle.std.specs.Prelude.{◌≡◌, All, IfOk, Ok, Some, map};
ghost use Rattle.serde_json.specs.Data.{array};
ghost use Rattle.serde_json.specs.View.{items_of, view};
ghost use Rattle.dsse_envelope.specs.Base64.{decoded};
ghost use Rattle.dsse_envelope.specs.Envelopes.{envelope_of};
ghost use Rattle.dsse_envelope.specs.Written.{HasTextId, IsWritable, ReadsBack, base64_data, base64_text};
ghost use Rattle.dsse_envelope.specs.Written.{envelope_data, signature_data};

use crate::base64_texts::encode;
use crate::{Envelope, Signature};
use json_fields::text_value;
use octets::Memory;
use serde_json::{Map, Value, put};
use std::alloc::Global;

// Bytes as a text of base64.
fn base64_value(alloc: Global, bytes: &[u8]) -> Result<Value, Memory>
    ensures data { IfOk result (λ value. view value ≡ base64_data bytes.now) }
    ensures decodes { IfOk result (λ value. decoded (base64_text bytes.now) ≡ Some bytes.now) }
{
    let text = encode(alloc, bytes)?;
    Ok(Value::from(text))
}

// A signature as a value.
fn signature_value(alloc: Global, signature: &Signature) -> Result<Value, Memory>
    requires { HasTextId signature.now }
    ensures data { IfOk result (λ value. view value ≡ signature_data signature.now) }
    ensures reads_back { IfOk result (λ value. ReadsBack signature.now) }
{
    let keyid = text_value(alloc, signature.keyid.as_slice())?;
    let sig = base64_value(alloc, signature.sig.as_slice())?;
    let mut fields = Map::new(alloc);
    put(&mut fields, alloc, "keyid", keyid)?;
    put(&mut fields, alloc, "sig", sig)?;
    Ok(Value::Object(fields))
}

// Signatures as a list of values.
fn signatures_value(alloc: Global, signatures: &[Signature]) -> Result<Value, Memory>
    requires { All HasTextId signatures.now }
    ensures data { IfOk result (λ value. view value ≡ array (items_of (map signature_data signatures.now))) }
    ensures reads_back { IfOk result (λ value. All ReadsBack signatures.now) }
{
    let mut values = Vec::new(alloc);
    for signature in signatures {
        let value = signature_value(alloc, signature)?;
        values.push(value)?;
    }
    Ok(Value::from(values))
}

/// An envelope as a value.
pub(crate) fn envelope_value(alloc: Global, envelope: &Envelope) -> Result<Value, Memory>
    requires { IsWritable envelope.now }
    ensures data { IfOk result (λ value. view value ≡ envelope_data envelope.now) }
    ensures reads_back { IfOk result (λ value. envelope_of (envelope_data envelope.now) ≡ Ok envelope.now) }
{
    let payload = base64_value(alloc, envelope.payload.as_slice())?;
    let payload_type = text_value(alloc, envelope.payload_type.as_slice())?;
    let signatures = signatures_value(alloc, envelope.signatures.as_slice())?;
    let mut fields = Map::new(alloc);
    put(&mut fields, alloc, "payload", payload)?;
    put(&mut fields, alloc, "payloadType", payload_type)?;
    put(&mut fields, alloc, "signatures", signatures)?;
    Ok(Value::Object(fields))
}
