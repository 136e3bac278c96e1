ghost use Rattle.std.specs.Prelude.{◌≡◌, Some};
ghost use Rattle.http_responses.specs.Responses.{method_word};

use std::fmt;

/// The methods that some resource allows (RFC 9110, 9.3).
#[derive(Clone, Copy, Debug, PartialEq, Eq)]
pub enum Method {
    Get,
    Post,
}

impl Method {
    /// The method as it is written. Methods are compared exactly (RFC 9110, 9.1).
    pub fn word(self) -> &'static str
        ensures { result.now ≡ method_word self }
    {
        match self {
            Method::Get => "GET",
            Method::Post => "POST",
        }
    }
}

impl fmt::Display for Method {
    ghost output = { λ m. Some (method_word m) };

    fn fmt<W: fmt::Write>(&self, f: &mut fmt::Formatter<W>) -> fmt::Result {
        f.write_str(self.word())
    }
}
