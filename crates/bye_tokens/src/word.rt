ghost use Rattle.bye_terms.specs.Ascii.{is_ascii};
ghost use Rattle.bye_tokens.specs.Words as spec;
ghost use Rattle.std.specs.Prelude.{◌≡◌, IsTrue, codes};
ghost use Rattle.std.specs.Str.{chars, bytes_eq};

/// A word that the grammar of queries has, or that SPARQL 1.1 Query and Update have and it leaves out (section 19.8).
#[derive(Debug, Copy, Clone)]
pub enum Word {
    /// `a`, as it stands; every other word is read in any case.
    A,
    Select,
    Distinct,
    Where,
    Prefix,
    Optional,
    Filter,
    Bound,
    SameTerm,
    IsIri,
    IsUri,
    IsBlank,
    IsLiteral,
    True,
    False,
    Ask,
    Construct,
    Describe,
    Base,
    Reduced,
    From,
    Named,
    Union,
    Minus,
    Graph,
    Service,
    Bind,
    Values,
    Exists,
    Not,
    Order,
    Group,
    Having,
    Limit,
    Offset,
    Insert,
    Delete,
    Load,
    Clear,
    Create,
    Drop,
    Copy,
    Move,
    Add,
    With,
    /// Any other word.
    Other,
}

/// Whether the two are the same but for the case of ASCII letters.
fn same_letters(text: &str, name: &str) -> bool
    requires { IsTrue (is_ascii name.now) }
    ensures { result ≡ spec.same_letters (chars text.now) name.now }
{
    text.eq_ignore_ascii_case(name)
}

/// Whether the text is `a`.
fn is_a(text: &str) -> bool
    ensures { result ≡ bytes_eq (chars text.now) (codes "a") }
{
    text == "a"
}

/// The words that the grammar of queries has.
fn grammar_word(text: &str) -> Option<Word>
    ensures { result ≡ spec.grammar_word (chars text.now) }
{
    if same_letters(text, "select") {
        return Some(Word::Select);
    }
    if same_letters(text, "distinct") {
        return Some(Word::Distinct);
    }
    if same_letters(text, "where") {
        return Some(Word::Where);
    }
    if same_letters(text, "prefix") {
        return Some(Word::Prefix);
    }
    if same_letters(text, "optional") {
        return Some(Word::Optional);
    }
    if same_letters(text, "filter") {
        return Some(Word::Filter);
    }
    if same_letters(text, "bound") {
        return Some(Word::Bound);
    }
    if same_letters(text, "sameterm") {
        return Some(Word::SameTerm);
    }
    if same_letters(text, "isiri") {
        return Some(Word::IsIri);
    }
    if same_letters(text, "isuri") {
        return Some(Word::IsUri);
    }
    if same_letters(text, "isblank") {
        return Some(Word::IsBlank);
    }
    if same_letters(text, "isliteral") {
        return Some(Word::IsLiteral);
    }
    if same_letters(text, "true") {
        return Some(Word::True);
    }
    if same_letters(text, "false") {
        return Some(Word::False);
    }
    None
}

/// Words of queries that the grammar leaves out.
fn query_word(text: &str) -> Option<Word>
    ensures { result ≡ spec.query_word (chars text.now) }
{
    if same_letters(text, "ask") {
        return Some(Word::Ask);
    }
    if same_letters(text, "construct") {
        return Some(Word::Construct);
    }
    if same_letters(text, "describe") {
        return Some(Word::Describe);
    }
    if same_letters(text, "base") {
        return Some(Word::Base);
    }
    if same_letters(text, "reduced") {
        return Some(Word::Reduced);
    }
    if same_letters(text, "from") {
        return Some(Word::From);
    }
    if same_letters(text, "named") {
        return Some(Word::Named);
    }
    if same_letters(text, "union") {
        return Some(Word::Union);
    }
    if same_letters(text, "minus") {
        return Some(Word::Minus);
    }
    if same_letters(text, "graph") {
        return Some(Word::Graph);
    }
    if same_letters(text, "service") {
        return Some(Word::Service);
    }
    if same_letters(text, "bind") {
        return Some(Word::Bind);
    }
    if same_letters(text, "values") {
        return Some(Word::Values);
    }
    if same_letters(text, "exists") {
        return Some(Word::Exists);
    }
    if same_letters(text, "not") {
        return Some(Word::Not);
    }
    None
}

/// The rest of these: words after a pattern, and words of updates.
fn update_word(text: &str) -> Option<Word>
    ensures { result ≡ spec.update_word (chars text.now) }
{
    if same_letters(text, "order") {
        return Some(Word::Order);
    }
    if same_letters(text, "group") {
        return Some(Word::Group);
    }
    if same_letters(text, "having") {
        return Some(Word::Having);
    }
    if same_letters(text, "limit") {
        return Some(Word::Limit);
    }
    if same_letters(text, "offset") {
        return Some(Word::Offset);
    }
    if same_letters(text, "insert") {
        return Some(Word::Insert);
    }
    if same_letters(text, "delete") {
        return Some(Word::Delete);
    }
    if same_letters(text, "load") {
        return Some(Word::Load);
    }
    if same_letters(text, "clear") {
        return Some(Word::Clear);
    }
    if same_letters(text, "create") {
        return Some(Word::Create);
    }
    if same_letters(text, "drop") {
        return Some(Word::Drop);
    }
    if same_letters(text, "copy") {
        return Some(Word::Copy);
    }
    if same_letters(text, "move") {
        return Some(Word::Move);
    }
    if same_letters(text, "add") {
        return Some(Word::Add);
    }
    if same_letters(text, "with") {
        return Some(Word::With);
    }
    None
}

/// The word that a text is.
pub fn word_of(text: &str) -> Word
    ensures { result ≡ spec.word_of (chars text.now) }
{
    if is_a(text) {
        return Word::A;
    }
    if let Some(word) = grammar_word(text) {
        return word;
    }
    if let Some(word) = query_word(text) {
        return word;
    }
    match update_word(text) {
        Some(word) => word,
        None => Word::Other,
    }
}
