//! What the table of commands comes to, over the definitions alone.
//! Each law is the contract of a function that does nothing.

ghost use Rattle.command_words.specs.Laws.{CommandsAreSimple, SettingsAreExact};

/// Each command of the table is simple, so the crate finds in words just what its reading of simple commands says.
pub fn commands_are_simple()
    ensures simple { CommandsAreSimple }
{}

/// Words give settings exactly where the first is the command, the crate has no fault to find with the others, and what it finds in
/// them gives these settings.
pub fn settings_are_exact()
    ensures exact { SettingsAreExact }
{}
