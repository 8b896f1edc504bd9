//! What every check of an opening answers.

ghost use Rattle.std.specs.Prelude.{true, false};
ghost use Rattle.carriers.specs.Openings.{Answered};

use crate::faults::OpenFault;

/// The answer of a check: a short row before a group that cannot be carried.
/// The question is asked only behind the length, since it may walk over the whole group.
pub(crate) fn opening<F: Fn() -> bool>(
    length: usize,
    needed: usize,
    carried: F,
) -> Result<(), OpenFault>
    requires { F.IsAlwaysCallable carried }
    ensures { Answered needed length (F.post carried true) (F.post carried false) result }
{
    if length < needed {
        Err(OpenFault::Short)
    } else if carried() {
        Ok(())
    } else {
        Err(OpenFault::Kind)
    }
}
