//! What holds of printed tokens.
ghost use Rattle.std.specs.Prelude.{◌≡◌, ◌<◌, ◌^◌, ◌++◌, ◌∷◌, [], ℕ, ℤ, pos, List, codes, true};
ghost use Rattle.std.specs.List.{flat_map};
ghost use Rattle.ode_lex.specs.Marks.{spelled_mark};
ghost use Rattle.ode_lex.specs.declared.token.Mark.{Mark};
ghost use Rattle.ode_lex.specs.declared.token.TokenKind.TheVariants as kind;
ghost use Rattle.ode_value.specs.Decimal.{digits_of};
ghost use Rattle.ode_value.specs.References.{spelled_ref, IsRef};
ghost use Rattle.ode_value.specs.Texts.{value_text};
ghost use Rattle.ode_value.specs.Words.{is_word};
ghost use Rattle.ode_value.specs.declared.value.Ref.{Ref};
ghost use Rattle.ode_value.specs.declared.value.Value.TheVariants as value;
ghost use Rattle.ode_relex.specs.Ends.{ends_mark, is_text, stops, IsToken};

/// A word is one token, where no byte of a word follows it.
pub fn printed_words_are_tokens()
    ensures { (word rest : List ℕ) → is_word word ≡ true → stops rest ≡ true → IsToken kind.Word word rest }
{}

/// A printed mark is one token, which is that mark.
pub fn printed_marks_are_tokens()
    ensures { (mark : Mark) (rest : List ℕ) → ends_mark rest ≡ true → IsToken (kind.Mark mark) (spelled_mark mark) rest }
{}

/// A printed number from 0 to 2^63 - 1 is one token, which is that number.
pub fn printed_numbers_are_tokens()
    ensures { (n : ℕ) (rest : List ℕ) → n < 2 ^ 63 → stops rest ≡ true → IsToken (kind.Number (pos n)) (digits_of n) rest }
{}

/// A printed text in quotes is one token.
pub fn printed_texts_are_tokens()
    ensures { (text rest : List ℕ) → is_text text ≡ true → IsToken kind.Text (value_text (value.Text text)) rest }
{}

/// A printed reference that isn't null is one token, which is that reference.
pub fn printed_references_are_tokens()
    ensures { (r : Ref) (rest : List ℕ) → IsRef r → 0 < r.object → stops rest ≡ true → IsToken (kind.Reference r) (spelled_ref r) rest }
{}
