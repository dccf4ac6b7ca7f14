/// The interval of a new throttle, in milliseconds. After Microsoft's documentation of `RTD.ThrottleInterval`.
pub const DEFAULT_INTERVAL: i64 = 2_000;

/// The interval at which pulls are manual.
pub const MIN_INTERVAL: i64 = -1;

/// The greatest interval.
pub const MAX_INTERVAL: i64 = 2_147_483_647;

/// The last moment that a pull may have, in milliseconds.
pub const MAX_MOMENT: u64 = 999_999_999_999_999;

// An edit of a number is refused here, since clauses name the constants.
const _: () = prove!(DEFAULT_INTERVAL == 2_000);

const _: () = prove!(MIN_INTERVAL == -1);

const _: () = prove!(MAX_INTERVAL == 2_147_483_647);

const _: () = prove!(MAX_MOMENT == 999_999_999_999_999);
