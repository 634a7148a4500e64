//! Endpoints: the URLs of this machine to which texts are sent.
ghost use Rattle.std.specs.Prelude.{◌≡◌, true, codes, bytes_eq, is_some, unwrap_or, IfOk};
ghost use Rattle.url.specs.Parts.{Parts};
ghost use Rattle.http_target.specs.Endpoint as spec;
ghost use Rattle.http_target.specs.Endpoint.{endpoint_of, host_of, is_local, port_of};

use json_text::NoMemory;
use std::alloc::Global;
use std::marker::Model;
use url::{ParseError, Url};

/// How many bytes the text of an endpoint may have.
const LONGEST_TEXT: usize = 1_600;

/// The port of HTTP, if the URL names none.
const HTTP_PORT: u16 = 80;

/// An endpoint. Contracts see the parts of its URL.
#[derive(Drop)]
pub struct Endpoint {
    pub(crate) url: Url,
}

impl Model for Endpoint {
    ghost use Rattle.std.specs.Prelude.{◌≡◌, true};
    ghost use Rattle.url.specs.Parts.{Parts, parts_code};
    ghost use Rattle.http_target.specs.Endpoint.{is_local};

    ghost Value = { Parts };

    ghost coded = { parts_code };

    ghost view = { λ e. e.url };

    ghost invariant = { λ e. is_local e.url ≡ true };
}

impl Endpoint {
    /// The endpoint that the text names. `None` if it names none.
    pub fn read(alloc: Global, text: &str) -> Result<Option<Endpoint>, NoMemory>
        ensures { IfOk result (λ e. e ≡ endpoint_of text.now) }
    {
        if text.len() > LONGEST_TEXT {
            return Ok(None);
        }
        match Url::parse(alloc, text) {
            Ok(url) => {
                if is_local(&url) {
                    Ok(Some(Endpoint { url }))
                } else {
                    Ok(None)
                }
            }
            Err(ParseError::OutOfMemory | ParseError::Overflow) => Err(NoMemory),
            Err(_) => Ok(None),
        }
    }

    /// Whether the host is the name `localhost`. Else it is the address 127.0.0.1.
    pub fn is_localhost(&self) -> bool
        ensures { result ≡ bytes_eq (host_of self.now) (codes "localhost") }
    {
        host(&self.url) == "localhost"
    }

    /// The port to connect to, 80 if the URL names none.
    pub fn port(&self) -> u16
        ensures { result ≡ port_of self.now }
    {
        self.url.port().unwrap_or(HTTP_PORT)
    }
}

/// Whether the text is an endpoint.
pub fn is_endpoint(alloc: Global, text: &str) -> Result<bool, NoMemory>
    ensures { IfOk result (λ b. b ≡ spec.is_endpoint text.now) }
{
    Ok(Endpoint::read(alloc, text)?.is_some())
}

/// The text of the host, empty if the URL has none.
pub(crate) fn host(url: &Url) -> &str
    ensures { result.now ≡ host_of url.now }
{
    match url.host_str() {
        Some(host) => host,
        None => "",
    }
}

fn is_local(url: &Url) -> bool
    ensures { result ≡ is_local url.now }
{
    let host = host(url);
    url.scheme() == "http"
        && (host == "127.0.0.1" || host == "localhost")
        && url.username().is_empty()
        && url.password().is_none()
        && url.fragment().is_none()
}
