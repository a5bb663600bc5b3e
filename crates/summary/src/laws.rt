//! What the code in a line is.

ghost use Rattle.std.specs.Prelude.{◌≡◌, ◌++◌, List, ℕ, Some, codes, length};
ghost use Rattle.std.specs.Int.{w32, from_be_bytes};
ghost use Rattle.hex.specs.Hex.{IsBytes, encode_lower};
ghost use Rattle.summary.specs.Codes.{IsWord, code_in, code_of};

/// The code in a line is what its third word says, and four bytes in lower-case digits say the number that they are. It does nothing.
pub fn codes_are_read()
    ensures line { (name op word rest : List ℕ) → IsWord name → IsWord op → IsWord word
        → code_in (name ++ codes " " ++ op ++ codes " " ++ word ++ codes " " ++ rest)
        ≡ code_of word }
    ensures word { (bytes : List ℕ) → length bytes ≡ 4 → IsBytes bytes
        → code_of (encode_lower bytes) ≡ Some (from_be_bytes w32 bytes) }
{}
