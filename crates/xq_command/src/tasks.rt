//! What the program is asked to do.

/// What the words of the command line ask for.
#[derive(Debug, Drop)]
pub enum Asked {
    /// To serve a database.
    Serve(Task),
    /// How the program is called: this text.
    Help(String),
    /// Nothing that the program knows.
    Bad,
    /// The words can't be read, for want of memory.
    NoRoom,
}

/// A database to serve.
#[derive(Debug, Drop)]
pub struct Task {
    /// The path of its file. Where there is none it lives in memory.
    pub file: Option<String>,
    /// How many bytes of what queries read are kept for later ones. Where the words don't say it, the
    /// store keeps as much as it does by itself.
    pub kept: Option<usize>,
}
