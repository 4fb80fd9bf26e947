// Clear names: sheets that have such names alone are told apart by their call sheets.
#![tactic(auto)]

pub mod tests;

ghost use Rattle.std.specs.Prelude.{◌≡◌};
ghost use Rattle.patterns.specs.Calls.{as_verdict, verdict_call};
ghost use Rattle.clear.specs.Test.{is_clear};

use crate::tests::is_clear_name;
use admit::{Refusal, admit_text};

// Whether the name is clear (`clear_tested` in proofs/Tested.antt). Any bytes may be given.
pub fn is_clear(name: &[u8]) -> Result<bool, Refusal>
    ensures { as_verdict result ≡ verdict_call name.now (is_clear name.now) }
{
    admit_text(name)?;
    Ok(is_clear_name(name))
}
