//! A request to the server of a node.

ghost use Rattle.std.specs.Prelude.{IfOk};
ghost use Rattle.http_posts.specs.Posts.{PostsTo};

use crate::fault::PostError;
use bytes::Bytes;
use http_body_util::Full;
use hyper::Request;
use hyper::header::HeaderMap;
use std::alloc::Global;

/// A request with these fields, of which these bytes are the body.
pub(crate) fn request(
    alloc: Global,
    path: &str,
    fields: HeaderMap,
    bytes: &[u8],
) -> Result<Request<Full<Bytes>>, PostError>
    ensures { IfOk result (PostsTo path.now fields bytes.now) }
{
    let body = Full::new(Bytes::copy_from_slice(alloc, bytes)?);
    match Request::post(alloc, path).body(body) {
        Ok(mut request) => {
            *request.headers_mut() = fields;
            Ok(request)
        }
        Err(_) => Err(PostError::Failed),
    }
}
