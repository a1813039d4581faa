//! Reading an envelope from its JSON value.

ghost use Rattle.std.specs.Prelude.{◌≡◌, ◌⊎◌, ◌↔◌, ◌≤◌, ◌&&◌, All, IfOk, IfErr, IfSome, IsTrue, IsUtf8, Ok, Err, Some};
ghost use Rattle.std.specs.Prelude.{None, length, nat_le};
ghost use Rattle.std.specs.Option.{option_map};
ghost use Rattle.serde_json.specs.View.{items_view, view};
ghost use Rattle.dsse_envelope.specs.Envelopes.{count_of, envelope_of, have_texts, signature_of, signatures_of};
ghost use Rattle.dsse_envelope.specs.Envelopes.{texts_of, with_bytes, with_count};
ghost use Rattle.dsse_envelope.specs.Base64.{decoded};
ghost use Rattle.dsse_envelope.specs.Written.{HasTextId, IsWritable};
ghost use Rattle.dsse_envelope.specs.declared.base64_texts.TextFault.TheVariants as text_fault;
ghost use Rattle.dsse_envelope.specs.declared.envelope.EnvelopeFault.TheVariants as fault;

use crate::base64_texts::{TextFault, decode};
use crate::{Envelope, EnvelopeFault, Signature, Signatures};
use json_fields::{list_in, text_in, text_in_or_empty};
use octets::Octets;
use serde_json::Value;
use std::alloc::Global;

/// The most signatures of an envelope.
pub(crate) const MOST_SIGNATURES: usize = 64;

// The texts of a signature: its key's id and itself.
fn texts_in(value: &Value) -> Option<(&str, &str)>
    ensures found { option_map (λ texts. (texts.0.now, texts.1.now)) result ≡ texts_of (view value.now) }
    ensures id { IfSome result (λ texts. IsUtf8 texts.0.now) }
{
    let Some(sig) = text_in(value, "sig") else {
        return None;
    };
    let Some(keyid) = text_in_or_empty(value, "keyid") else {
        return None;
    };
    Some((keyid, sig))
}

// Whether each value has the texts of a signature.
fn all_have_texts(values: &[Value]) -> bool
    ensures { result ≡ have_texts (items_view values.now) }
{
    'values: for value in values {
        if texts_in(value).is_none() {
            return false;
        }
    }
    true
}

// A signature whose text decodes.
fn signature_in(alloc: Global, value: &Value) -> Result<Signature, TextFault>
    ensures ok { IfOk result (λ signature. signature_of (view value.now) ≡ Some signature) }
    ensures id { IfOk result HasTextId }
    ensures refused { IfErr result (λ e. (e ≡ text_fault.Memory)
        ⊎ ((e ≡ text_fault.BadBase64) × (signature_of (view value.now) ≡ None))) }
{
    let Some((keyid, sig)) = texts_in(value) else {
        return Err(TextFault::BadBase64);
    };
    let sig = match decode(alloc, sig.as_bytes()) {
        Ok(sig) => sig,
        Err(fault) => return Err(fault),
    };
    let keyid = Octets::from_slice(alloc, keyid.as_bytes())?;
    Ok(Signature { keyid, sig })
}

// All signatures, where each decodes.
fn signatures_in(alloc: Global, values: &[Value]) -> Result<Signatures, TextFault>
    ensures ok { IfOk result (λ signatures. signatures_of (items_view values.now) ≡ Some signatures) }
    ensures count { IfOk result (λ signatures. length signatures ≡ length values.now) }
    ensures ids { IfOk result (λ signatures. All HasTextId signatures) }
    ensures refused { IfErr result (λ e. (e ≡ text_fault.Memory)
        ⊎ ((e ≡ text_fault.BadBase64) × (signatures_of (items_view values.now) ≡ None))) }
{
    let mut signatures = Signatures::new(alloc);
    'values: for value in values {
        let signature = match signature_in(alloc, value) {
            Ok(signature) => signature,
            Err(fault) => return Err(fault),
        };
        signatures.push(signature)?;
    }
    Ok(signatures)
}

// How many values there are.
fn count(values: &[Value]) -> usize
    ensures items { result ≡ count_of (items_view values.now) }
    ensures values { result ≡ length values.now }
{
    values.len()
}

// Whether an envelope may have so many signatures.
fn is_count(count: usize) -> bool
    ensures { result ≡ (nat_le 1 count && nat_le count 64) }
{
    count >= 1 && count <= MOST_SIGNATURES
}

// The envelope of these texts, where each decodes.
fn decode_parts(
    alloc: Global,
    payload: &str,
    payload_type: &str,
    values: &[Value],
) -> Result<Envelope, EnvelopeFault>
    requires { (1 ≤ length values.now) × (length values.now ≤ 64) }
    ensures ok { IfOk result (λ envelope. with_bytes payload_type.now (decoded payload.now)
        (signatures_of (items_view values.now)) ≡ Ok envelope) }
    ensures writable { IfOk result IsWritable }
    ensures refused { IfErr result (λ e. (e ≡ fault.Memory)
        ⊎ (with_bytes payload_type.now (decoded payload.now) (signatures_of (items_view values.now)) ≡ Err e)) }
{
    let payload = match decode(alloc, payload.as_bytes()) {
        Ok(payload) => payload,
        Err(TextFault::BadBase64) => return Err(EnvelopeFault::BadBase64),
        Err(TextFault::Memory) => return Err(EnvelopeFault::Memory),
    };
    let signatures = match signatures_in(alloc, values) {
        Ok(signatures) => signatures,
        Err(TextFault::BadBase64) => return Err(EnvelopeFault::BadBase64),
        Err(TextFault::Memory) => return Err(EnvelopeFault::Memory),
    };
    let payload_type = Octets::from_slice(alloc, payload_type.as_bytes())?;
    Ok(Envelope {
        payload_type,
        payload,
        signatures,
    })
}

// The envelope of these parts.
fn read_parts(
    alloc: Global,
    payload: &str,
    payload_type: &str,
    values: &[Value],
) -> Result<Envelope, EnvelopeFault>
    ensures ok { IfOk result (λ envelope. with_count payload.now payload_type.now (items_view values.now)
        (count_of (items_view values.now)) ≡ Ok envelope) }
    ensures writable { IfOk result IsWritable }
    ensures refused { IfErr result (λ e. (e ≡ fault.Memory)
        ⊎ (with_count payload.now payload_type.now (items_view values.now) (count_of (items_view values.now)) ≡ Err e)) }
{
    let count = count(values);
    if !is_count(count) {
        return Err(EnvelopeFault::BadCount { count });
    }
    if !all_have_texts(values) {
        return Err(EnvelopeFault::MissingField);
    }
    decode_parts(alloc, payload, payload_type, values)
}

/// The envelope that a value is.
pub(crate) fn read_value(alloc: Global, value: &Value) -> Result<Envelope, EnvelopeFault>
    ensures ok { IfOk result (λ envelope. envelope_of (view value.now) ≡ Ok envelope) }
    ensures writable { IfOk result IsWritable }
    ensures refused { IfErr result (λ e. (e ≡ fault.Memory) ⊎ (envelope_of (view value.now) ≡ Err e)) }
{
    let Some(payload) = text_in(value, "payload") else {
        return Err(EnvelopeFault::MissingField);
    };
    let Some(payload_type) = text_in(value, "payloadType") else {
        return Err(EnvelopeFault::MissingField);
    };
    let Some(values) = list_in(value, "signatures") else {
        return Err(EnvelopeFault::MissingField);
    };
    read_parts(alloc, payload, payload_type, values)
}
