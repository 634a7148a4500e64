//! The method of a request, as far as it matters here.
ghost use Rattle.std.specs.Prelude.{◌≡◌};
ghost use Rattle.api_messages.specs.Fields.{method_of, is_post};

/// The method of a request: POST, HEAD or another.
#[derive(Clone, Copy, Debug, PartialEq, Eq)]
pub enum Method {
    Post,
    Head,
    Other,
}

impl Method {
    #[tactic(auto, unfolding(crate::specs::Fields::method_of))]
    pub(crate) fn of(bytes: &[u8]) -> Method
        ensures { result ≡ method_of bytes.now }
    {
        if bytes == b"POST".as_slice() {
            Method::Post
        } else if bytes == b"HEAD".as_slice() {
            Method::Head
        } else {
            Method::Other
        }
    }

    pub(crate) fn is_post(self) -> bool
        ensures { result ≡ is_post self }
    {
        match self {
            Method::Post => true,
            Method::Head | Method::Other => false,
        }
    }
}
