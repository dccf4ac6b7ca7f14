//! What an add-in function was registered with, an asynchronous call that was asked for, and the functions that are
//! added to a host.
#![tactic(auto)]

mod add_ins;
mod calls;
mod laws;
mod registrations;
mod samples;
#[cfg(test)]
mod tests;
mod type_faults;
mod type_reading;
mod type_writing;

pub use add_ins::AddIns;
pub use calls::Call;
pub use laws::{each_fault_has_its_cause, each_registration_has_its_text};
pub use registrations::{Kind, Registration};
pub use samples::SampleAddIns;
pub use type_faults::TypeFault;
pub use type_reading::read_type;
pub use type_writing::write_type;
