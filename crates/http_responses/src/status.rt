ghost use Rattle.std.specs.Prelude.{◌≡◌};
ghost use Rattle.http_responses.specs.Responses.{reason_phrase, status_number};

/// How a request ended (RFC 9110, 15; 507 is RFC 4918, 11.5).
#[derive(Clone, Copy, Debug, PartialEq, Eq)]
pub enum StatusCode {
    Ok,
    BadRequest,
    NotFound,
    MethodNotAllowed,
    Conflict,
    PayloadTooLarge,
    UnprocessableEntity,
    ServiceUnavailable,
    InsufficientStorage,
}

impl StatusCode {
    /// The three digits of the status as a number.
    pub fn number(self) -> u32
        ensures { result ≡ status_number self }
    {
        match self {
            StatusCode::Ok => 200,
            StatusCode::BadRequest => 400,
            StatusCode::NotFound => 404,
            StatusCode::MethodNotAllowed => 405,
            StatusCode::Conflict => 409,
            StatusCode::PayloadTooLarge => 413,
            StatusCode::UnprocessableEntity => 422,
            StatusCode::ServiceUnavailable => 503,
            StatusCode::InsufficientStorage => 507,
        }
    }

    /// The phrase that stands behind the number.
    pub fn reason(self) -> &'static str
        ensures { result.now ≡ reason_phrase self }
    {
        match self {
            StatusCode::Ok => "OK",
            StatusCode::BadRequest => "Bad Request",
            StatusCode::NotFound => "Not Found",
            StatusCode::MethodNotAllowed => "Method Not Allowed",
            StatusCode::Conflict => "Conflict",
            StatusCode::PayloadTooLarge => "Payload Too Large",
            StatusCode::UnprocessableEntity => "Unprocessable Entity",
            StatusCode::ServiceUnavailable => "Service Unavailable",
            StatusCode::InsufficientStorage => "Insufficient Storage",
        }
    }
}
