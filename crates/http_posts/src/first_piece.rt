//! The first piece of a body.

use bytes::Bytes;
use futures::task::{Context, Poll};
use futures::{Future, ready};
use http_body::Body;
use hyper::body::Incoming;
use tokio::net::TcpStream;

/// Gives the first piece of a body, if there is one.
#[derive(Drop)]
pub(crate) struct FirstPiece {
    pub(crate) body: Incoming<TcpStream>,
}

impl Future for FirstPiece {
    ghost use Rattle.std.specs.Prelude.{IfSome};
    ghost use Rattle.http_posts.specs.Bodies.{MayBegin};

    type Output = Option<Bytes>;

    ghost gives = { λ first found. IfSome found (MayBegin first.body) };

    fn poll(&mut self, cx: &mut Context<'_>) -> Poll<Option<Bytes>> {
        match ready!(self.body.poll_frame(cx)) {
            Some(Ok(frame)) => Poll::Ready(frame.into_data().ok()),
            Some(Err(_)) | None => Poll::Ready(None),
        }
    }
}
