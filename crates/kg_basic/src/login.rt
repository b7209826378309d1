//! The name and password that a request carries.

ghost use Rattle.std.specs.Prelude.{◌≡◌, IfOk, IsUtf8};
ghost use Rattle.std.specs.Option.{option_copied};
ghost use Rattle.kg_basic.specs.Logins.{base64_bytes, behind_scheme, login_in, login_of, login_of_value};

use base64::DecodeAllocError;
use base64::engine::general_purpose::STANDARD;
use kg_auth::single_value;
use kg_message::Headers;
use kg_text::{Bytes, NoMemory, Text};
use std::alloc::Global;
use std::str::from_utf8;

/// A name and a password.
#[derive(Drop)]
pub struct Login {
    pub username: Text,
    pub password: Text,
}

/// The name and password in the one field Authorization, if there is just one and it carries them.
pub fn login_of(alloc: Global, headers: &Headers) -> Result<Option<Login>, NoMemory>
    ensures { IfOk result (λ login. login ≡ login_of headers.now) }
{
    match single_value(headers, b"authorization") {
        Some(value) => login_of_value(alloc, value),
        None => Ok(None),
    }
}

fn login_of_value(alloc: Global, value: &[u8]) -> Result<Option<Login>, NoMemory>
    ensures { IfOk result (λ login. login ≡ login_of_value value.now) }
{
    match behind_scheme(value) {
        Some(text) => match base64_bytes(alloc, text)? {
            Some(bytes) => login_in(alloc, bytes.as_slice()),
            None => Ok(None),
        },
        None => Ok(None),
    }
}

// What follows `Basic`, in any case, and one space.
fn behind_scheme(value: &[u8]) -> Option<&[u8]>
    ensures { option_copied result ≡ behind_scheme value.now }
{
    if value.len() >= 6 && value[..6].eq_ignore_ascii_case(b"Basic ") {
        Some(&value[6..])
    } else {
        None
    }
}

// The bytes that a text of standard base64 encodes, if it is one.
#[tactic(auto, unfolding(crate::specs::Logins::base64_bytes, base64::specs::GeneralPurpose::decoded_of))]
fn base64_bytes(alloc: Global, text: &[u8]) -> Result<Option<Bytes>, NoMemory>
    ensures { IfOk result (λ bytes. bytes ≡ base64_bytes text.now) }
{
    match STANDARD.decode(alloc, text) {
        Ok(bytes) => Ok(Some(Bytes::from_vec(bytes))),
        Err(DecodeAllocError::OutOfMemory) => Err(NoMemory),
        Err(DecodeAllocError::DecodeError(_)) => Ok(None),
    }
}

// Text with a colon: the name ends at the first one.
fn login_in(alloc: Global, bytes: &[u8]) -> Result<Option<Login>, NoMemory>
    ensures { IfOk result (λ login. login ≡ login_in bytes.now) }
{
    match from_utf8(bytes) {
        Ok(text) => login_in_text(alloc, text),
        Err(_) => Ok(None),
    }
}

fn login_in_text(alloc: Global, text: &str) -> Result<Option<Login>, NoMemory>
    requires { IsUtf8 text.now }
    ensures { IfOk result (λ login. login ≡ login_in text.now) }
{
    match text.split_once(':') {
        Some((username, password)) => Ok(Some(Login {
            username: Text::from_str(alloc, username)?,
            password: Text::from_str(alloc, password)?,
        })),
        None => Ok(None),
    }
}
