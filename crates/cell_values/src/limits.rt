//! The limits of values.

/// The greatest magnitude of a number.
pub const LARGEST_NUMBER: u64 = 999_999_999_999_999;
/// The greatest number of characters of a text.
pub const LONGEST_TEXT: usize = 32_767;
/// The greatest number of bytes of a name.
pub const LONGEST_NAME: usize = 255;

// An edit of a number is refused here, since clauses name the constants.
const _: () = prove!(LARGEST_NUMBER == 999_999_999_999_999);

const _: () = prove!(LONGEST_TEXT == 32_767);

const _: () = prove!(LONGEST_NAME == 255);
