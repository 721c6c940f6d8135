//! What reads and writes folders, a driver for each kind.
#![tactic(auto)]

mod driver;
mod drivers;
mod drivers_error;

pub use driver::Driver;
pub use drivers::Drivers;
pub use drivers_error::DriversError;
