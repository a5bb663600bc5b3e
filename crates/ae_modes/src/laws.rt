// The law of the definitions, proved on a function that does nothing.

ghost use Rattle.ae_modes.specs.Laws.{OpeningGivesTheMessage};

/// Opening what was sealed with the same key, nonce and associated data gives the message.
pub fn opening_gives_the_message()
    ensures { OpeningGivesTheMessage }
{}
