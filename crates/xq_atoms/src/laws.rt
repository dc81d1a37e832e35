//! What holds of the operations together: each function's contract is a law, and its body does
//! nothing.
ghost use Rattle.std.specs.Prelude.{◌≡◌, ℕ, ◌<◌, ◌^◌, ℤ, pos, Ok, decimal, FitsSigned};
ghost use Rattle.std.specs.Fmt.{signed_decimal};
ghost use Rattle.xq_atoms.specs.Atom.{Integer};
ghost use Rattle.xq_atoms.specs.Literal.{integer_literal};
ghost use Rattle.xq_atoms.specs.Cast.{integer_of_text};

/// The digits of an integer that is not negative are a literal of that integer.
pub fn integer_literal_reads_back(value: u64)
    ensures { value < 2 ^ 63 → integer_literal (decimal value) ≡ Ok (pos value) }
{
    let _ = value;
}

/// The text of an integer, cast to an integer, is that integer.
pub fn integer_text_reads_back(value: i64)
    ensures { integer_of_text (signed_decimal value) ≡ Ok (Integer value) }
{
    let _ = value;
}
