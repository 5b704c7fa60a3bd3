//! What an intake answers an upload.
//! The definitions of specs/ say which answer each upload gets.

/// An intake's answer to an upload.
#[derive(Clone, Copy, Debug, PartialEq, Eq)]
pub enum Reply {
    /// No earlier entry has the share's id.
    Stored,
    /// All earlier entries of the share's id have the same content.
    Repeat,
    /// An earlier entry of the share's id has another content.
    Clash,
}
