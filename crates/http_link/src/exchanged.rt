// An exchange as a link shows it. Only contracts see it, and it takes no memory.
ghost use Rattle.std.specs.Prelude.{◌≡◌};

use router_disk::Heard;
use std::marker::Model;
use std::snapshot::Snapshot;

/// An exchange that had an answer.
#[derive(Drop)]
pub(crate) struct Exchanged {
    endpoint: Heard,
    text: Heard,
    code: Snapshot<u16>,
}

impl Model for Exchanged {
    ghost use Rattle.router_disk.specs.Link.{Exchange};

    ghost Value = { Exchange };

    ghost view = { λ s. record { endpoint = s.endpoint; text = s.text; code = s.code.value } };
}

impl Exchanged {
    /// The exchange of this text with this endpoint.
    pub(crate) fn new(endpoint: &str, text: &str, code: u16) -> Exchanged
        ensures { result ≡ record { endpoint = endpoint.now; text = text.now; code = code } }
    {
        Exchanged {
            endpoint: heard(endpoint),
            text: heard(text),
            code: Snapshot::of(&code),
        }
    }
}

fn heard(text: &str) -> Heard
    ensures { result ≡ text.now }
{
    let mut heard = Heard::new();
    heard.hear(text.as_bytes());
    heard
}
