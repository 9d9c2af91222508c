// The protocol of orders and reads over one store: its states, its calls, the permit, and the law over whole runs. Definitions, and the
// theorem.

#![tactic(auto)]

ghost use Rattle.protocol.specs.Law.{ReadsStayWhole};

mod permit;

pub use permit::permits;

// After every beginning of every run from an untouched state, reads are whole.
pub fn reads_stay_whole() -> u8
    ensures { ReadsStayWhole }
{
    0
}
