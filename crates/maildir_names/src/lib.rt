//! What the names of files in a Maildir tell (maildir(5)). `read_name` takes a name apart,
//! `make_name` puts it together, `order_of` gives the place of a message in its folder.
#![tactic(auto)]

mod base_order;
mod laws;
mod maildir_name;

pub use base_order::order_of;
pub use laws::made_names_are_split;
pub use maildir_name::{MaildirName, flags_of, make_name, other_letters, read_name, split_name};
