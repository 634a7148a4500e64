// The one error of the outside, and how it is counted.
ghost use Rattle.std.specs.Prelude.{◌≡◌, IsErr};
ghost use Rattle.router_disk.specs.Faults.{CountsFaults, last_count};

use thiserror::Error;

/// A call of an object of the outside failed. The object's count of faults shows it.
#[derive(Clone, Copy, Debug, PartialEq, Eq, Error)]
#[error("the outside failed")]
pub struct Failed;

/// Counts a fault, and returns it.
pub(crate) fn fail<T>(faults: &mut u64) -> Result<T, Failed>
    ensures fails { IsErr result }
    ensures count { CountsFaults faults.old faults.new result }
{
    *faults = faults.saturating_add(1);
    Err(Failed)
}

/// The answer of a call, counted if it is a failure. For objects whose every error is a failure.
pub fn counted<T>(faults: &mut u64, answer: Result<T, Failed>) -> Result<T, Failed>
    requires { faults.old ≡ last_count → IsErr answer }
    ensures same { result ≡ answer }
    ensures count { CountsFaults faults.old faults.new answer }
{
    match answer {
        Ok(value) => Ok(value),
        Err(Failed) => {
            *faults = faults.saturating_add(1);
            Err(Failed)
        }
    }
}
