//! Which words are keywords, names and functions.
ghost use Rattle.std.specs.Prelude.{◌≡◌, ◌&&◌, not, codes};
ghost use Rattle.std.specs.List.{list_any};
ghost use Rattle.pj_lex.specs.Bytes.{upper};
ghost use Rattle.pj_grammar.specs.Lexemes.{word, same, spells, may_name, names_function, is_not_if};
ghost use Rattle.pj_grammar.specs.Lexemes.{may_name_list};
ghost use Rattle.pj_grammar.specs.Lexemes.{is_aggregate};

/// The words that are no names.
const RESERVED: [&[u8]; 15] = [
    b"SELECT",
    b"FROM",
    b"WHERE",
    b"GROUP",
    b"ORDER",
    b"BY",
    b"LIMIT",
    b"SETTINGS",
    b"AS",
    b"AND",
    b"OR",
    b"NOT",
    b"ASC",
    b"DESC",
    b"PROJECTION",
];

/// The functions that any letter case names.
const FUNCTIONS: [&[u8]; 4] = [b"COUNT", b"SUM", b"MIN", b"MAX"];

/// The letter as a capital, any other byte as it is.
fn upper(b: u8) -> u8
    ensures { result ≡ upper b }
{
    b.to_ascii_uppercase()
}

/// Whether the word is the one of these capitals, in any letter case.
pub fn spells(capitals: &[u8], word: &[u8]) -> bool
    ensures { result ≡ spells capitals.now word.now }
{
    word.len() == capitals.len()
        && word
            .iter()
            .zip(capitals)
            .all(|(b, capital)| upper(*b) == *capital)
}

/// Whether the word is one of these, in any letter case.
fn spells_any(words: &[&[u8]], word: &[u8]) -> bool
    ensures { result ≡ list_any (λ capitals. spells capitals.now word.now) words.now }
{
    words.iter().any(|capitals| spells(capitals, word))
}

/// Whether the word can be a name.
#[tactic(auto, unfolding(crate::specs::Lexemes::may_name))]
pub fn may_name(word: &[u8]) -> bool
    ensures { result ≡ may_name word.now }
{
    !spells_any(&RESERVED, word)
}

/// Whether the word names a function.
#[tactic(auto, unfolding(crate::specs::Lexemes::names_function))]
pub fn names_function(word: &[u8]) -> bool
    ensures { result ≡ names_function word.now }
{
    spells_any(&FUNCTIONS, word) || is_exactly(b"uniqExact", word) || is_exactly(b"intDiv", word)
}

/// Whether the word is this one exactly.
pub fn is_exactly(bytes: &[u8], word: &[u8]) -> bool
    ensures { result ≡ same word.now bytes.now }
{
    word == bytes
}

/// Whether the word can be a name before a parenthesis.
pub fn may_name_list(word: &[u8]) -> bool
    ensures { result ≡ may_name_list word.now }
{
    may_name(word) && !names_function(word)
}

/// Whether the word isn't IF, in any letter case.
pub fn is_not_if(word: &[u8]) -> bool
    ensures { result ≡ is_not_if word.now }
{
    !spells(b"IF", word)
}

/// Whether the word names an aggregate function.
pub fn names_aggregate(name: &[u8]) -> bool
    ensures { result ≡ is_aggregate (word name.now) }
{
    spells(b"COUNT", name)
        || spells(b"SUM", name)
        || spells(b"MIN", name)
        || spells(b"MAX", name)
        || is_exactly(b"uniqExact", name)
}
