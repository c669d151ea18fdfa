//! Why a request is answered before anything is asked.

ghost use Rattle.std.specs.Prelude.{◌≡◌};
ghost use Rattle.http_routes.specs.Replies.{IsReply, http_value};
ghost use Rattle.http_steps.specs.Rejections.{rejection_labels, rejection_reply, unreadable_text};

use http::Error;
use http_exchange::{Labels, Refusal};
use http_routes::HttpReply;
use http1::ReadError;
use http1::framing::FramingError;
use std::alloc::{AllocError, Global};

/// Why a head is answered before anything is asked.
#[derive(Clone, Copy)]
pub(crate) enum Rejection {
    /// It can't be read.
    Unreadable(ReadError),
    /// Its target is none.
    BadTarget,
    /// It has more fields, or longer names, than a map takes.
    ManyFields,
    /// It isn't let in.
    Refused(Refusal),
    /// Memory is refused.
    NoMemory,
}

impl From<AllocError> for Rejection {
    ghost use Rattle.std.specs.Prelude.{◌≡◌};
    ghost use Rattle.http_steps.specs.declared.rejection.Rejection.TheVariants.{NoMemory};

    ghost from_gives = { λ _ rejection. rejection ≡ NoMemory };

    fn from(_error: AllocError) -> Rejection {
        Rejection::NoMemory
    }
}

impl From<Error> for Rejection {
    ghost use Rattle.std.specs.Prelude.{◌≡◌};
    ghost use Rattle.http_steps.specs.Rejections.{parts_rejection};

    ghost from_gives = { λ error rejection. rejection ≡ parts_rejection error };

    // Of a head that was read, and whose parts can't be.
    fn from(error: Error) -> Rejection {
        match error {
            Error::OutOfMemory => Rejection::NoMemory,
            Error::HeaderName | Error::MaxSizeReached => Rejection::ManyFields,
            Error::StatusCode
            | Error::Method
            | Error::Uri(_)
            | Error::UriParts(_)
            | Error::HeaderValue => Rejection::BadTarget,
        }
    }
}

impl Rejection {
    /// The reply to the head.
    pub(crate) fn reply(self, alloc: Global) -> HttpReply
        ensures { IsReply (rejection_reply self) (http_value result) }
    {
        match self {
            Rejection::Unreadable(fault) => {
                HttpReply::text(alloc, fault.status(), unreadable_text(fault))
            }
            Rejection::BadTarget => HttpReply::text(alloc, 400, BAD_LINE),
            Rejection::ManyFields => HttpReply::text(alloc, 431, MANY_FIELDS),
            Rejection::Refused(refusal) => refusal.reply(alloc),
            Rejection::NoMemory => HttpReply::no_memory(alloc),
        }
    }

    /// What that reply is labelled as.
    pub(crate) fn labels(self) -> Labels
        ensures { result ≡ rejection_labels self }
    {
        match self {
            Rejection::Refused(refusal) => refusal.labels(),
            Rejection::Unreadable(_)
            | Rejection::BadTarget
            | Rejection::ManyFields
            | Rejection::NoMemory => Labels::plain(),
        }
    }
}

const BAD_LINE: &str = "bad request line: send it as GET /fail HTTP/1.1";

const BAD_FIELD: &str = "bad field: send each as Name: value, ended by CR LF";

const MANY_FIELDS: &str = "too many fields: send at most 100";

// What is said of a head that can't be read, and what to send.
fn unreadable_text(fault: ReadError) -> &'static str
    ensures { result.now ≡ unreadable_text fault }
{
    match fault {
        ReadError::UriTooLong => "too long a path: a head has 65536 bytes at most",
        ReadError::TooLarge => "too long a head: send at most 65536 bytes",
        ReadError::Parse(httparse::Error::TooManyHeaders) => MANY_FIELDS,
        ReadError::Parse(httparse::Error::HeaderName | httparse::Error::HeaderValue)
        | ReadError::BareLineFeed => BAD_FIELD,
        ReadError::Host => "bad Host: send one",
        ReadError::Framing(FramingError::InvalidContentLength | FramingError::ConnectWithContent) =>
            { "bad Content-Length: send one, of digits alone" }
        ReadError::Framing(_) => "bad Transfer-Encoding: send Content-Length, or chunks alone",
        ReadError::Parse(_)
        | ReadError::Chunk(_)
        | ReadError::UnexpectedEof
        | ReadError::UnexpectedResponse => BAD_LINE,
    }
}
