//! The files that a principal is given by name.

/// The files that a run names.
#[derive(Drop)]
pub struct RunFiles<'w> {
    /// The keys.
    pub keys: &'w str,
    /// The programs, in order.
    pub programs: &'w [&'w str],
    /// The script.
    pub script: &'w str,
}

/// The files that a run for an application names.
#[derive(Drop)]
pub struct NamedFiles<'w> {
    /// The keys.
    pub keys: &'w str,
    /// The programs, in order.
    pub programs: &'w [&'w str],
    /// The ledger, if it keeps one.
    pub ledger: Option<&'w str>,
}
