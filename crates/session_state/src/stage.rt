//! How far a run is.

/// What a run wants next.
#[derive(Clone, Copy, Debug, PartialEq, Eq)]
pub enum Stage {
    /// Files of commands are still to be read, or the folder is to be opened.
    Unopened,
    /// The folder was found; files of commands are still to be read that its hooks name.
    Opening,
    /// The folder is open, and the keys that the commands put still wait.
    Pushing,
    /// A key is wanted.
    Idle,
    /// A key was taken.
    Ready,
    /// Files of commands are still to be read that keys have come to; the keys behind them wait.
    Reading,
    /// The changes are to be written, the deletions too where it purges; the keys wait. Where it quits,
    /// the run is to end behind that.
    Syncing { purge: bool, quits: bool },
    /// A sync was made, and the folder is to be checked behind it; the run is over then where it
    /// leaves, and else the keys go on.
    Checking { leaves: bool },
    Over,
}
