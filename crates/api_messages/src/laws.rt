//! The laws of the definitions, for every list of bytes.
ghost use Rattle.std.specs.Prelude.{◌≡◌, ℕ, ◌+◌, ◌<◌, ◌++◌, ◌⊎◌, List, length};
ghost use Rattle.httparse.specs.Grammar.{EndsInTarget};
ghost use Rattle.api_messages.specs.Messages.{IsMessage, IsRefused, IsAwaited, IsStream, IsLeft, HoldsMessage, first_bytes};
ghost use Rattle.api_messages.specs.declared.message.Message.{Message};
ghost use Rattle.api_messages.specs.declared.message.Refusal.{Refusal};
ghost use Rattle.api_messages.specs.declared.message.Refusal.TheVariants.{BadHead};

/// Bytes are read in one way, however they were cut. No message begins another one. Refused or awaited bytes begin with no
/// message. Refused bytes stay refused for the same reason, whatever follows. Bytes are both awaited and refused in one case
/// only: they end inside a request target that cannot become UTF-8. No message comes of them.
pub fn one_reading()
    ensures one_message { (a b x y : List ℕ) (m n : Message) → IsMessage a m → IsMessage b n
        → a ++ x ≡ b ++ y → (a ≡ b) × (m ≡ n) }
    ensures not_refused { (a x : List ℕ) (m : Message) (why : Refusal) → IsMessage a m → ¬ (IsRefused (a ++ x) why) }
    ensures not_awaited { (a x : List ℕ) (m : Message) → IsMessage a m → ¬ (IsAwaited (a ++ x)) }
    ensures stays { (a x : List ℕ) (why : Refusal) → IsRefused a why → IsRefused (a ++ x) why }
    ensures one_stream { (bytes r q : List ℕ) (ms ns : List Message) → IsStream bytes ms r
        → IsStream bytes ns q → IsLeft r → IsLeft q → (ms ≡ ns) × (r ≡ q) }
    ensures undecided { (a : List ℕ) (why : Refusal) → IsAwaited a → IsRefused a why → (why ≡ BadHead) × EndsInTarget a }
{}

/// Bytes are refused for one reason. One case is left open: their first 16,384 bytes end inside a request target that cannot
/// become UTF-8.
pub fn one_refusal()
    ensures { (a : List ℕ) (why other : Refusal) → IsRefused a why → IsRefused a other
        → (why ≡ other) ⊎ EndsInTarget (first_bytes a) }
{}

/// Awaited bytes are fewer than the longest head and the longest body.
pub fn awaited_is_short()
    ensures { (bytes : List ℕ) → IsAwaited bytes → length bytes < 16384 + 1048576 }
{}

/// A message takes at least one byte.
pub fn no_message_is_empty()
    ensures { (bytes rest : List ℕ) (m : Message) → HoldsMessage bytes m rest → length rest < length bytes }
{}
