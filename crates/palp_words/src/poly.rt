// The words of `poly`.
ghost use Rattle.std.specs.Prelude.{◌≡◌, ◌<◌, ◌^◌, length, [], None, Some, map, string_bytes, MatchResult};
ghost use Rattle.palp_words.specs.Words.{first_fault, poly_fault, poly_flags};

use crate::fault::WordFault;
use crate::job::PolyFlags;
use crate::letters::{given, has_one_of, letters_fault};

/// The flags that the words behind `poly` give, or the first wrong one of them.
pub fn read_poly(further: &[String]) -> Result<PolyFlags, WordFault>
    requires { length further.now < 2 ^ 31 }
    ensures { MatchResult result
        (λ flags. (first_fault poly_fault [] (map string_bytes further.now) ≡ None)
        × (flags ≡ poly_flags (map string_bytes further.now)))
        (λ fault. first_fault poly_fault [] (map string_bytes further.now) ≡ Some fault) }
{
    check_poly(further)?;
    Ok(PolyFlags {
        general: given(further, b"ga") || !given(further, b"gpvemdia"),
        points: given(further, b"pa"),
        vertices: given(further, b"va"),
        equations: given(further, b"ea"),
        matrix: given(further, b"ma"),
        dual_points: given(further, b"da"),
        incidence: given(further, b"i"),
        reflexive_only: given(further, b"r"),
        dual_input: given(further, b"D"),
        plain: given(further, b"n"),
    })
}

/// Whether the words behind `poly` are right, or the first wrong one of them.
fn check_poly(further: &[String]) -> Result<(), WordFault>
    requires { length further.now < 2 ^ 31 }
    ensures { MatchResult result
        (λ _. first_fault poly_fault [] (map string_bytes further.now) ≡ None)
        (λ fault. first_fault poly_fault [] (map string_bytes further.now) ≡ Some fault) }
{
    let mut plain = false;
    let mut dual = false;
    for (place, word) in further.iter().enumerate() {
        let index = place as u32 + 2;
        let bytes = word.as_bytes();
        plain |= has_one_of(bytes, b"n");
        dual |= has_one_of(bytes, b"adD");
        if let Some(kind) = letters_fault(bytes, b"gpvemdiarDn", plain & dual) {
            return Err(WordFault { index, kind });
        }
    }
    Ok(())
}
