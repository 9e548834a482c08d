//! What the words of the clauses come to, as functions whose body is empty.
ghost use Rattle.std.specs.Prelude.{◌≡◌, ◌++◌, ◌∷◌, ◌⊎◌, ℕ, Err, List, Ok, Result, [], map, take};
ghost use Rattle.std.specs.Str.{IsUtf8};
ghost use Rattle.std.specs.Str.Lossy.{utf8_valid_len};
ghost use Rattle.std.specs.declared.convert.Infallible.{Infallible};
ghost use Rattle.fallible_iterator.specs.Lists.{items, numbered};
ghost use Rattle.fallible_json.specs.Checked.{texted, without_text};
ghost use Rattle.fallible_json.specs.Expected.{GoOnWith};
ghost use Rattle.fallible_json.specs.Grammar.{IsJsonText};
ghost use Rattle.fallible_json.specs.Json.{IsJson, not_text_at, told};
ghost use Rattle.fallible_json.specs.Lexing.{Lexeme, Placed, lexed};
ghost use Rattle.fallible_json.specs.Minifying.{bytes_of_all, minified, minified_or_wanted};
ghost use Rattle.fallible_json.specs.Places.{place_of};
ghost use Rattle.fallible_json.specs.Spelled.{Spell, SpellLongest, tokens_with_bytes};
ghost use Rattle.fallible_json.specs.Taking.{◌before◌};
ghost use Rattle.fallible_json.specs.Texts.{Tokens, cut, texts_of, tokens_by};
ghost use Rattle.fallible_json.specs.Trees.{BeginsTree, Tree, tokens_of, written};
ghost use Rattle.fallible_json.specs.WrittenTexts.{BeginWithPart, BeginWithTexts};
ghost use Rattle.fallible_json.specs.declared.fault.JsonFault.{JsonFault};
ghost use Rattle.fallible_json.specs.declared.minifying.Misplaced.{Misplaced};
ghost use Rattle.fallible_json.specs.declared.minifying.Misplaced.TheVariants.{Ended, Source, Unexpected};
ghost use Rattle.fallible_json.specs.declared.token.Token.{Token};
ghost use Rattle.fallible_json.specs.declared.wanted.Wanted.{Wanted};

/// Tokens are one JSON text if and only if they are what is written of a tree, and of one tree alone.
pub fn law_trees()
    ensures written { (tree : Tree) → IsJsonText (written tree) }
    ensures accepted { (tokens : List Token) → IsJsonText tokens
        → (tree : Tree) × (tokens ≡ written tree) }
    ensures one { (a b : Tree) → written a ≡ written b → a ≡ b }
{}

/// Placed tokens come to the bytes of them all if and only if they are what is written of a tree, whatever their places.
pub fn law_minified<E>()
    ensures written { (text : List ℕ) (tree : Tree) (lexemes : List Lexeme)
        → tokens_of lexemes ≡ written tree
        → minified {E = E} text (items lexemes) ≡ Ok (bytes_of_all text lexemes) }
    ensures accepted { (text json : List ℕ) (l : List (Result Lexeme E)) → minified text l ≡ Ok json
        → (tree : Tree) × (lexemes : List Lexeme) × (l ≡ items lexemes)
        × (tokens_of lexemes ≡ written tree) × (json ≡ bytes_of_all text lexemes) }
{}

/// The first fault of placed tokens is a failure of their source, a token with which those before it begin no tree, or the end if they are no tree; and those before it begin one.
pub fn law_minified_faults<E>()
    ensures source { (text : List ℕ) (e : E) (l : List (Result Lexeme E))
        → minified text l ≡ Err (Source e)
        → (earlier : List Lexeme) × (rest : List (Result Lexeme E))
        × (l ≡ items earlier ++ Err e ∷ rest) × BeginsTree (tokens_of earlier) }
    ensures unexpected { (text : List ℕ) (first : ℕ) (l : List (Result Lexeme E))
        → minified text l ≡ Err (Unexpected first)
        → (earlier : List Lexeme) × (last : ℕ) × (token : Token) × (rest : List (Result Lexeme E))
        × (l ≡ items earlier ++ Ok (first, last, token) ∷ rest)
        × BeginsTree (tokens_of earlier) × ¬ (BeginsTree (tokens_of earlier ++ token ∷ [])) }
    ensures ended { (text : List ℕ) (l : List (Result Lexeme E)) → minified text l ≡ Err Ended
        → (earlier : List Lexeme) × (l ≡ items earlier) × BeginsTree (tokens_of earlier)
        × ¬ ((tree : Tree) × (tokens_of earlier ≡ written tree)) }
{}

/// Bytes are a JSON text if and only if they are UTF-8 and their tokens are what is written of a tree. Without blanks it is the bytes of these tokens, one after the other.
pub fn law_json()
    ensures written { (bytes : List ℕ) (tree : Tree) (lexemes : List Lexeme) → IsUtf8 bytes
        → lexed {E = Infallible} (numbered 0 (items bytes)) ≡ items lexemes
        → tokens_of lexemes ≡ written tree → IsJson bytes (bytes_of_all bytes lexemes) }
    ensures accepted { (bytes json : List ℕ) → IsJson bytes json
        → IsUtf8 bytes × (tree : Tree) × (lexemes : List Lexeme)
        × (lexed {E = Infallible} (numbered 0 (items bytes)) ≡ items lexemes)
        × (tokens_of lexemes ≡ written tree) × (json ≡ bytes_of_all bytes lexemes) }
{}

/// Bytes are read as tokens without a failure if and only if by the rules of RFC 8259 they are these tokens at their places, with blanks between, and each token is as long as can be.
pub fn law_lexed<E>()
    ensures read { (bytes : List ℕ) (lexemes : List Lexeme)
        → lexed {E = E} (numbered 0 (items bytes)) ≡ items lexemes → SpellLongest bytes lexemes }
    ensures spelled { (bytes : List ℕ) (lexemes : List Lexeme) → SpellLongest bytes lexemes
        → lexed {E = E} (numbered 0 (items bytes)) ≡ items lexemes }
{}

/// The tokens of placed bytes with their text are their tokens.
pub fn law_texted<E>()
    ensures { (l : List (Result Placed E)) → map without_text (texted l) ≡ lexed l }
{}

/// Bytes are a JSON text if and only if they are UTF-8 and by the rules of RFC 8259 they are tokens with blanks between, and the tokens are what is written of a tree.
pub fn law_spelled()
    ensures written { (bytes : List ℕ) (tree : Tree) (lexemes : List Lexeme) → IsUtf8 bytes
        → Spell bytes lexemes → tokens_of lexemes ≡ written tree
        → IsJson bytes (bytes_of_all bytes lexemes) }
    ensures accepted { (bytes json : List ℕ) → IsJson bytes json
        → IsUtf8 bytes × (tree : Tree) × (lexemes : List Lexeme) × Spell bytes lexemes
        × (tokens_of lexemes ≡ written tree) × (json ≡ bytes_of_all bytes lexemes) }
{}

/// A JSON text without its blanks is a JSON text that has none, with the same tokens, and each of these has the same bytes.
pub fn law_printed()
    ensures again { (bytes json : List ℕ) → IsJson bytes json → IsJson json json }
    ensures tokens { (bytes json : List ℕ) → IsJson bytes json
        → (lexemes printed : List Lexeme)
        × (lexed {E = Infallible} (numbered 0 (items bytes)) ≡ items lexemes)
        × (lexed {E = Infallible} (numbered 0 (items json)) ≡ items printed)
        × (tokens_with_bytes json printed ≡ tokens_with_bytes bytes lexemes) }
{}

/// What is told to be expected at the first fault of placed tokens are the tokens with which those before it begin a tree, and no others.
pub fn law_wanted<E>()
    ensures source { (text : List ℕ) (earlier : List Lexeme) (e : E) (rest : List (Result Lexeme E))
        (fault : Misplaced E) (wanted : Wanted)
        → minified_or_wanted text (items earlier ++ Err e ∷ rest) ≡ Err (fault, wanted)
        → BeginsTree (tokens_of earlier) → GoOnWith (tokens_of earlier) wanted }
    ensures unexpected { (text : List ℕ) (earlier : List Lexeme) (x : Lexeme)
        (rest : List (Result Lexeme E)) (fault : Misplaced E) (wanted : Wanted)
        → minified_or_wanted text (items earlier ++ Ok x ∷ rest) ≡ Err (fault, wanted)
        → BeginsTree (tokens_of earlier) → ¬ (BeginsTree (tokens_of earlier ++ x.2 ∷ []))
        → GoOnWith (tokens_of earlier) wanted }
    ensures ended { (text : List ℕ) (earlier : List Lexeme) (fault : Misplaced E) (wanted : Wanted)
        → minified_or_wanted text (items earlier) ≡ Err (fault, wanted)
        → BeginsTree (tokens_of earlier) → GoOnWith (tokens_of earlier) wanted }
{}

/// The texts of an input are what is written of trees, one after the other. If it has no fault, it is UTF-8 and has no other tokens. If it is UTF-8, its fault is that of the tokens after the texts, as if these were all. Otherwise it is that of the tokens in front, or the byte that is no UTF-8. And an input that is one JSON text is this text alone.
pub fn law_texts()
    ensures ended { (bytes : List ℕ) (texts : List (List ℕ))
        → texts_of bytes ≡ map (λ text. Ok text) texts
        → IsUtf8 bytes × BeginWithTexts bytes texts (lexed (numbered 0 (items bytes))) [] }
    ensures faulty { (bytes json : List ℕ) (texts : List (List ℕ)) (fault : JsonFault) → IsUtf8 bytes
        → texts_of bytes ≡ texts before Err (json, fault) ∷ []
        → (others : Tokens) × BeginWithTexts bytes texts (lexed (numbered 0 (items bytes))) others
        × BeginWithPart bytes json others
        × (told bytes (minified_or_wanted bytes others) ≡ Err fault) }
    ensures broken { (bytes json : List ℕ) (texts : List (List ℕ)) (fault : JsonFault)
        → ¬ (IsUtf8 bytes) → texts_of bytes ≡ texts before Err (json, fault) ∷ []
        → let front = take (utf8_valid_len bytes) bytes in (others : Tokens)
        × BeginWithTexts front texts (tokens_by cut front (lexed (numbered 0 (items front)))) others
        × BeginWithPart front json others
        × ((told front (minified_or_wanted front others) ≡ Err fault)
        ⊎ (fault ≡ not_text_at (place_of bytes (utf8_valid_len bytes)))) }
    ensures one { (bytes json : List ℕ) → IsJson bytes json → texts_of bytes ≡ Ok json ∷ [] }
{}
