//! The limits of formulas.

/// The greatest number of characters of a formula, its `=` among them.
pub const LONGEST_FORMULA: usize = 8_192;
/// The greatest number of calls that are open at one place.
pub const MOST_CALLS: usize = 64;
/// The greatest number of calls and parentheses together that are open at one place.
pub const MOST_OPEN: usize = 128;
/// The greatest number of cells of a written area.
pub const LARGEST_AREA: u64 = 65_536;

// An edit of a number is refused here, since clauses name the constants.
const _: () = prove!(LONGEST_FORMULA == 8_192);

const _: () = prove!(MOST_CALLS == 64);

const _: () = prove!(MOST_OPEN == 128);

const _: () = prove!(LARGEST_AREA == 65_536);
