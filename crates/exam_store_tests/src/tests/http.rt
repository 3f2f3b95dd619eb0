//! A candidate's requests over an office in memory.

/// A request of the first candidate, to the end of its head.
macro_rules! asked {
    ($line:literal) => {
        concat!(
            $line,
            " HTTP/1.1\r\nHost: office\r\nExam-Code: CODE0001\r\n\r\n"
        )
    };
}

/// A posting of the first candidate, with a body of so many bytes that begins like this.
macro_rules! posted {
    ($length:literal, $body:literal) => {
        concat!(
            "POST /candidates/0000001/appeals HTTP/1.1\r\nHost: office\r\nExam-Code: CODE0001\r\nContent-Length: ",
            $length,
            "\r\n\r\n",
            $body
        )
    };
}

/// An answer whose body has so many bytes.
macro_rules! answered {
    ($status:literal, $length:literal, $body:literal) => {
        concat!(
            "HTTP/1.1 ",
            $status,
            "\r\nContent-Type: application/json\r\nContent-Length: ",
            $length,
            "\r\nConnection: close\r\n\r\n",
            $body
        )
    };
}

/// The answer to a method that the route does not have, with those that it has.
macro_rules! not_allowed {
    ($methods:literal) => {
        concat!(
            "HTTP/1.1 405 Method Not Allowed\r\nContent-Type: application/json\r\nContent-Length: 12\r\nAllow: ",
            $methods,
            "\r\nConnection: close\r\n\r\n{\"error\":38}"
        )
    };
}

mod client;
mod cuts;
mod exchanges;
mod office;
mod sockets;
