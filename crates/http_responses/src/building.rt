ghost use Rattle.std.specs.Prelude.{◌≡◌, ◌++◌, IfOk, OnOk, codes, decimal};
ghost use Rattle.http_responses.specs.Responses.{allow_line, error_body, field_line, response_bytes, status_line};

use crate::method::Method;
use crate::status::StatusCode;
use std::alloc::{AllocError, Global};

fn add_status(alloc: Global, out: &mut Vec<u8>, status: StatusCode) -> Result<(), AllocError>
    ensures { OnOk result (out.new.items ≡ out.old.items ++ status_line status) }
{
    let number = status.number().to_string(alloc)?;
    out.extend_from_slice(b"HTTP/1.1 ")?;
    out.extend_from_slice(number.as_bytes())?;
    out.extend_from_slice(b" ")?;
    out.extend_from_slice(status.reason().as_bytes())?;
    out.extend_from_slice(b"\r\n")?;
    Ok(())
}

fn add_field(out: &mut Vec<u8>, name: &[u8], value: &[u8]) -> Result<(), AllocError>
    ensures { OnOk result (out.new.items ≡ out.old.items ++ field_line name.now value.now) }
{
    out.extend_from_slice(name)?;
    out.extend_from_slice(b": ")?;
    out.extend_from_slice(value)?;
    out.extend_from_slice(b"\r\n")?;
    Ok(())
}

fn add_allowed(out: &mut Vec<u8>, allow: Option<Method>) -> Result<(), AllocError>
    ensures { OnOk result (out.new.items ≡ out.old.items ++ allow_line allow) }
{
    match allow {
        Some(method) => add_field(out, b"Allow", method.word().as_bytes()),
        None => Ok(()),
    }
}

fn add_length(alloc: Global, out: &mut Vec<u8>, length: usize) -> Result<(), AllocError>
    ensures { OnOk result (out.new.items ≡ out.old.items ++ field_line (codes "Content-Length") (decimal length)) }
{
    let digits = length.to_string(alloc)?;
    add_field(out, b"Content-Length", digits.as_bytes())
}

/// A response with this body. `allow` is the method that would have been right.
pub fn response(
    alloc: Global,
    status: StatusCode,
    allow: Option<Method>,
    body: &[u8],
) -> Result<Vec<u8>, AllocError>
    ensures { IfOk result (λ bytes. bytes.items ≡ response_bytes status allow body.now) }
{
    let mut out = Vec::new(alloc);
    add_status(alloc, &mut out, status)?;
    add_allowed(&mut out, allow)?;
    add_field(&mut out, b"Content-Type", b"application/json")?;
    add_length(alloc, &mut out, body.len())?;
    out.extend_from_slice(b"\r\n")?;
    out.extend_from_slice(body)?;
    Ok(out)
}

/// A response that says its status alone.
pub fn error_response(
    alloc: Global,
    status: StatusCode,
    allow: Option<Method>,
) -> Result<Vec<u8>, AllocError>
    ensures { IfOk result (λ bytes. bytes.items ≡ response_bytes status allow (error_body status)) }
{
    let number = status.number().to_string(alloc)?;
    let mut body = Vec::new(alloc);
    body.extend_from_slice(b"{\"error\":")?;
    body.extend_from_slice(number.as_bytes())?;
    body.extend_from_slice(b"}")?;
    response(alloc, status, allow, &body)
}
