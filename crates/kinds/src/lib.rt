// What a kind of key and a kind of value answer, and why a call is refused.
#![tactic(auto)]

mod coded;
mod key;
mod refusal;
mod shown;
mod value;

pub use coded::Coded;
pub use key::Key;
pub use refusal::Refusal;
pub use value::Value;
