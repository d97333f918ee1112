// The kinds of values: limits, flag sets and registers.
#![tactic(auto)]

mod facts;
mod flags;
mod limit;
mod register;

pub use facts::later_register_wins;
pub use flags::Flags;
pub use limit::Limit;
pub use register::Register;
