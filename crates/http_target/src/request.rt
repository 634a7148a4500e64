//! The bytes of a request.
ghost use Rattle.std.specs.Prelude.{◌≡◌, ◌++◌, length, IfOk, OnOk};
ghost use Rattle.url.specs.Parts.{IsValid};
ghost use Rattle.http_target.specs.Endpoint.{host_of};
ghost use Rattle.http_target.specs.Request.{query_text, port_text, request_bytes, IsRequestTo};

use crate::Endpoint;
use crate::endpoint::host;
use itoa::Buffer;
use json_text::{Bytes, NoMemory};
use std::alloc::Global;
use url::Url;

impl Endpoint {
    /// The bytes of the request that carries `text` to this endpoint. They end with the text.
    pub fn request(&self, alloc: Global, text: &str) -> Result<Bytes, NoMemory>
        ensures bytes { IfOk result (λ r. r ≡ request_bytes self.now text.now) }
        ensures one { IfOk result (λ r. IsRequestTo self.now text.now r) }
    {
        let mut bytes = Bytes::new(alloc);
        bytes.extend(b"POST ")?;
        push_target(&self.url, &mut bytes)?;
        bytes.extend(b" HTTP/1.1\r\nHost: ")?;
        push_host(&self.url, &mut bytes)?;
        bytes.extend(b"\r\nContent-Type: application/json\r\nContent-Length: ")?;
        bytes.extend(Buffer::new().format(text.len()).as_bytes())?;
        bytes.extend(b"\r\nConnection: close\r\n\r\n")?;
        bytes.extend(text.as_bytes())?;
        Ok(bytes)
    }
}

fn push_target(url: &Url, bytes: &mut Bytes) -> Result<(), NoMemory>
    ensures ok { OnOk result (bytes.new ≡ bytes.old ++ (url.now.path ++ query_text url.now.query)) }
    ensures valid { IsValid url.now }
{
    bytes.extend(url.path().as_bytes())?;
    if let Some(query) = url.query() {
        bytes.extend(b"?")?;
        bytes.extend(query.as_bytes())?;
    }
    Ok(())
}

fn push_host(url: &Url, bytes: &mut Bytes) -> Result<(), NoMemory>
    ensures ok { OnOk result (bytes.new ≡ bytes.old ++ (host_of url.now ++ port_text url.now.port)) }
{
    bytes.extend(host(url).as_bytes())?;
    if let Some(port) = url.port() {
        bytes.extend(b":")?;
        bytes.extend(Buffer::new().format(port).as_bytes())?;
    }
    Ok(())
}
