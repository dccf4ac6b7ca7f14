//! The limits of calls.

/// The greatest number of arguments of a call.
pub const MOST_ARGUMENTS: u16 = 255;
/// The greatest number of values of an area.
pub const MOST_VALUES: usize = 65_536;

// An edit of a number is refused here, since clauses name the constants.
const _: () = prove!(MOST_ARGUMENTS == 255);

const _: () = prove!(MOST_VALUES == 65_536);
