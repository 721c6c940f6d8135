//! What a session stands on beside the index: what muttrc has set (`Rules`), and how files of
//! commands (`first_frames`, `read_first`, `skip_first`), typed commands (`run_typed`) and commands
//! of hooks (`run_folder_hooks`, `run_message_hooks`) change it, and what they tell (`Told`).
#![tactic(auto)]

mod beginning;
mod commands;
mod expr;
mod folder_hook;
mod frame;
mod hook_frames;
mod instant;
mod lesson;
mod pattern_hook;
mod reading;
mod rules;
mod scoring;
mod stage;
mod told;

pub use beginning::first_frames;
pub use frame::{Frame, Origin, read_first, run_typed, skip_first};
pub use hook_frames::{run_folder_hooks, run_message_hooks};
pub use instant::{Instant, Moment};
pub use lesson::Lesson;
pub use reading::read_at;
pub use rules::Rules;
pub use stage::Stage;
pub use told::{Told, add_notes};
