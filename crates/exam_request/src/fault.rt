//! Why a request is not served.
ghost use Rattle.std.specs.Prelude.{◌≡◌};
ghost use Rattle.exam_request.specs.Faults.{fault_number};

use thiserror::Error;

/// Why a request is not served. Nothing was done for it.
#[derive(Clone, Copy, Debug, PartialEq, Eq, Error)]
pub enum Fault {
    /// The input is cut off before the head ends, or the head is not one of HTTP/1.0 or HTTP/1.1 (RFC 9112), begins
    /// with a line end, has more than 32 header lines, or has a bare line feed.
    #[error("the head is not one")]
    Head,
    /// The host is not given as the version demands (RFC 9112, section 3.2): once in HTTP/1.1, at most once in 1.0.
    #[error("the host line is missing or repeated")]
    Host,
    /// The length of the body is given twice or not in 1 to 10 digits (RFC 9112, section 6.3), or the input is cut off
    /// before the body ends.
    #[error("the length is not that of the body")]
    Length,
    /// The head is longer than 8,192 bytes, or the body than 4,096.
    #[error("the request is too long")]
    Size,
    /// The body has a transfer coding. By RFC 9112, section 7.1, servers read chunked bodies; this one does not.
    #[error("transfer codings are not read")]
    TransferCoding,
    /// The body is not the JSON object of an appeal (`posted_in`).
    #[error("the body is not that of an appeal")]
    Body,
    /// There is no such route.
    #[error("no such route")]
    Route,
    /// The route has no such method (RFC 9110, section 15.5.6), `HEAD` among them.
    #[error("no such method here")]
    Method,
}

impl Fault {
    /// The number by which the fault is answered, 31 to 38.
    pub fn number(&self) -> u16
        ensures { result ≡ fault_number self.now }
    {
        match self {
            Fault::Head => 31,
            Fault::Host => 32,
            Fault::Length => 33,
            Fault::Size => 34,
            Fault::TransferCoding => 35,
            Fault::Body => 36,
            Fault::Route => 37,
            Fault::Method => 38,
        }
    }
}
