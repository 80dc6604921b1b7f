/// What a process does at a signal: the record that rt_sigaction registers (Linux, `sigaction(2)`).
#[derive(Clone, Copy, Debug, PartialEq, Eq)]
pub struct Action {
    /// The address of the handler.
    pub handler: u64,
    /// SA_SIGINFO, SA_RESTORER, SA_RESTART and SA_NODEFER.
    pub flags: u64,
    /// The address that the handler returns to.
    pub restorer: u64,
    /// The signals that are blocked besides while the handler runs: bit n - 1 for signal n.
    pub mask: u64,
}
