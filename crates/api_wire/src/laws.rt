//! The laws of the definitions.
ghost use Rattle.std.specs.Prelude.{◌≡◌, ℕ};
ghost use Rattle.router_requests.specs.Request.{Request, IsEntitled};
ghost use Rattle.api_replies.specs.declared.cause.Cause.{Cause};
ghost use Rattle.api_messages.specs.declared.message.Message.{Message};
ghost use Rattle.api_wire.specs.Call.{IsAsked, IsCallRefused};

/// A message asks for at most one request, has at most one refusal, and never both.
pub fn one_call()
    ensures request { (m : Message) (reading : ℕ) (a b : Request) → IsAsked m reading a → IsAsked m reading b → a ≡ b }
    ensures refusal { (m : Message) (c d : Cause) → IsCallRefused m c → IsCallRefused m d → c ≡ d }
    ensures never_both { (m : Message) (reading : ℕ) (a : Request) (c : Cause) → IsAsked m reading a → ¬ IsCallRefused m c }
{}

/// Only the owner asks for anything but to publish events, and events have the account of their caller.
pub fn entitled()
    ensures { (m : Message) (reading : ℕ) (r : Request) → IsAsked m reading r → IsEntitled r }
{}
