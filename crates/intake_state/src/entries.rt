//! An entry of an intake's log.
//! It is seen as the record of its name in `core_definitions`.

use core_definitions::Reply;
use idpf_eval::Share;
use std::marker::Model;

/// One upload.
#[derive(Debug, Drop)]
pub struct Entry {
    /// The number of who uploaded.
    pub number: u32,
    /// The share uploaded.
    pub share: Share,
    /// What was answered.
    pub reply: Reply,
}

impl Model for Entry {
    ghost use Rattle.core_definitions.specs.System.{Entry as Upload};

    ghost Value = { Upload };

    ghost view = { λ e. record { number = e.number; share = e.share; reply = e.reply } };
}
