//! What is printed of an atom gives this atom when it is read, and other laws of atoms: each
//! function's contract is a law, and its body does nothing.
ghost use Rattle.std.specs.Prelude.{◌≡◌, ◌^◌, pos, neg_ℤ, ◌<ℤ◌, true, Ok, codes};
ghost use Rattle.std.specs.List.{list_all};
ghost use Rattle.std.specs.Cmp.Lexicographic.{slice_cmp};
ghost use Rattle.std.specs.Ordering.{nat_cmp};
ghost use Rattle.std.specs.Str.{chars};
ghost use Rattle.xq_atoms.specs.Atom.{Integer, Decimal as ADecimal, String as AString, Untyped};
ghost use Rattle.xq_atoms.specs.Decimal.{floored, raised, rounded};
ghost use Rattle.xq_atoms.specs.Cast.{cast_integer, cast_decimal, text_of};
ghost use Rattle.xq_atoms.specs.Print.{print_atomic};
ghost use Rattle.xq_atoms.specs.Text.{text_cmp};
ghost use Rattle.xq_atoms.specs.Characters.{is_char};
ghost use Rattle.xq_lexer.specs.Lexeme.{str};
ghost use Rattle.xq_readback.specs.Reading.{number, called};
ghost use Rattle.xq_readback.specs.Rounding.{IsFloor, IsCeiling, IsNearest};
ghost use Rattle.xq_readback.specs.Tokens.{IsToken};

use xq_atoms::Decimal;

/// A printed integer is a numeric literal with that value, or with a minus before it; the least
/// one, whose literal would be out of range, is a cast of its text. The text of an integer, cast
/// to an integer, is that integer.
pub fn integer_reads_back(value: i64)
    ensures literal { neg_ℤ (pos (2 ^ 63)) <ℤ value
        → number (print_atomic (Integer value)) ≡ Ok (Integer value) }
    ensures least { value ≡ neg_ℤ (pos (2 ^ 63))
        → print_atomic (Integer value) ≡ called (codes "xs:integer") (text_of (Integer value)) }
    ensures cast { cast_integer (AString (text_of (Integer value))) ≡ Ok (Integer value) }
{
    let _ = value;
}

/// A printed decimal is a numeric literal with that value, or with a minus before it. The text of
/// a decimal, cast to a decimal, is that decimal.
pub fn decimal_reads_back(value: Decimal)
    ensures literal { number (print_atomic (ADecimal value)) ≡ Ok (ADecimal value) }
    ensures cast { cast_decimal (AString (text_of (ADecimal value))) ≡ Ok (ADecimal value) }
{
    let _ = value.millionths();
}

/// The whole numbers that `floor`, `ceiling` and `round` give of a decimal are the greatest that is
/// not greater, the least that is not less, and the nearest, of two the greater (F&O 3.1, section
/// 4.4).
pub fn rounds_to_whole_numbers(value: Decimal)
    ensures floor { IsFloor value (floored value) }
    ensures ceiling { IsCeiling value (raised value) }
    ensures round { IsNearest value (rounded value) }
{
    let _ = value.millionths();
}

/// A printed string is one token, a string literal with that value, where it holds what a query
/// may hold. A printed untyped value is a cast of that literal.
pub fn string_reads_back(text: &str)
    ensures literal { list_all is_char (chars text.now) ≡ true
        → IsToken (str text.now) (print_atomic (AString text.now)) }
    ensures untyped { print_atomic (Untyped text.now)
        ≡ called (codes "xs:untypedAtomic") text.now }
{
    let _ = text;
}

/// Texts stand by their bytes as by their characters, the code points (F&O 3.1, section 5.3.6).
pub fn stands_by_characters(left: &str, right: &str)
    ensures { text_cmp left.now right.now ≡ slice_cmp nat_cmp (chars left.now) (chars right.now) }
{
    let _ = left;
    let _ = right;
}
