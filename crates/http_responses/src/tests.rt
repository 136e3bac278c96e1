use crate::{Method, StatusCode, error_response, response};
use std::test::Fail;

#[test]
fn a_status_is_written_with_its_body(rt: HostRuntime) -> Result<(), Fail> {
    let bytes = error_response(rt.alloc(), StatusCode::NotFound, None)?;
    let expected =
        b"HTTP/1.1 404 Not Found\r\nContent-Type: application/json\r\nContent-Length: 13\r\n\r\n{\"error\":404}";
    assert!(rt; bytes.as_slice() == expected.as_slice());
    Ok(())
}

#[test]
fn the_allowed_method_stands_before_the_type(rt: HostRuntime) -> Result<(), Fail> {
    let bytes = error_response(rt.alloc(), StatusCode::MethodNotAllowed, Some(Method::Post))?;
    let expected =
        b"HTTP/1.1 405 Method Not Allowed\r\nAllow: POST\r\nContent-Type: application/json\r\nContent-Length: 13\r\n\r\n{\"error\":405}";
    assert!(rt; bytes.as_slice() == expected.as_slice());
    Ok(())
}

#[test]
fn a_body_is_written_as_it_is(rt: HostRuntime) -> Result<(), Fail> {
    let bytes = response(rt.alloc(), StatusCode::Ok, None, b"{\"done\":true}")?;
    let expected =
        b"HTTP/1.1 200 OK\r\nContent-Type: application/json\r\nContent-Length: 13\r\n\r\n{\"done\":true}";
    assert!(rt; bytes.as_slice() == expected.as_slice());
    Ok(())
}
