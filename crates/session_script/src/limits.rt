/// The most bytes of a line, its end not counted.
pub const MAX_LINE: usize = 160_000;

/// The most strings of a topic.
pub const MOST_STRINGS: usize = 16;

/// The most characters of a topic's string.
pub const LONGEST_STRING: usize = 255;

// An edit of a number is refused here, since clauses name the constants.
const _: () = prove!(MAX_LINE == 160_000);

const _: () = prove!(MOST_STRINGS == 16);

const _: () = prove!(LONGEST_STRING == 255);
