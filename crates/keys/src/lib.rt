// The kinds of keys: paths, ids and bobbins.
#![tactic(auto)]

mod bobbin;
mod facts;
mod id;
mod path;

pub use bobbin::Bobbin;
pub use facts::path_a_hashes_to_e40c292c;
pub use id::Id;
pub use path::Path;
