//! The law that words ask for one thing at most.

ghost use Rattle.command_words.specs.Asking.{AskForOne};

/// Words ask for one thing at most.
pub fn asks_for_one()
    ensures { AskForOne }
{}
