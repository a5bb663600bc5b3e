// The laws of the definitions, each proved on a function that does nothing.

ghost use Rattle.aes_modes.specs.Laws.{DecryptionUndoesEncryption};

/// Decryption undoes encryption, over a whole message.
pub fn decryption_undoes_encryption()
    ensures { DecryptionUndoesEncryption }
{}
