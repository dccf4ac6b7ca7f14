/// The most bytes that a reader of lines takes from its source.
pub const MAX_INPUT: usize = 67_108_864;

/// The most bytes of a line, its LF or CR LF not counted.
pub const MAX_LINE: usize = 160_000;

// An edit of a number is refused here, since clauses name the constants.
const _: () = prove!(MAX_INPUT == 67_108_864);

const _: () = prove!(MAX_LINE == 160_000);
