//! The syntax of a statement's id.
ghost use Rattle.std.specs.Prelude.{◌≡◌};
ghost use Rattle.std.specs.List.{list_all};
ghost use Rattle.event_shape.specs.Names.{is_queue_byte as passes};
ghost use Rattle.bus_policy.specs.StatementId as spec;

/// A StatementId has 1 to 64 bytes of `A-Z a-z 0-9 - _`.
pub fn is_statement_id(sid: &str) -> bool
    ensures { result ≡ spec.is_statement_id sid.now }
{
    !sid.is_empty() && sid.len() <= 64 && are_id_bytes(sid)
}

fn are_id_bytes(sid: &str) -> bool
    ensures { result ≡ list_all passes sid.now }
{
    sid.as_bytes().iter().all(|byte| is_id_byte(*byte))
}

fn is_id_byte(byte: u8) -> bool
    ensures { result ≡ passes byte }
{
    byte.is_ascii_alphanumeric() | (byte == b'-') | (byte == b'_')
}
