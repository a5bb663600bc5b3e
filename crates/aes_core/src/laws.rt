// The laws of the definitions, each proved on a function that does nothing.

ghost use Rattle.aes_core.specs.Laws.{DecryptionUndoesEncryption, EncryptionUndoesDecryption};

/// Decryption undoes encryption, block by block.
pub fn decryption_undoes_encryption()
    ensures { DecryptionUndoesEncryption }
{}

/// Encryption undoes decryption, block by block.
pub fn encryption_undoes_decryption()
    ensures { EncryptionUndoesDecryption }
{}
