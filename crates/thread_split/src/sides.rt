/// Where a formula may be evaluated. After Microsoft's documentation of multithreaded recalculation in Excel: a function
/// that isn't registered as thread safe runs on the main thread alone. That a call of RTD does too is this host's own.
#[derive(Clone, Copy, Debug, PartialEq, Eq)]
pub enum Side {
    /// On any thread.
    Any,
    /// On the main thread alone.
    Main,
}
