//! The first words of lines.
ghost use Rattle.std.specs.Prelude.{◌≡◌};
ghost use Rattle.kc_rows.specs.Keyword.{keyword, block_word, type_word, attribute_word};

use br_path::is_text;

/// What a line begins with.
#[derive(Clone, Copy)]
pub enum Keyword {
    MainMenu,
    Source,
    Menu,
    EndMenu,
    If,
    EndIf,
    Choice,
    EndChoice,
    Comment,
    /// `config` or `menuconfig`
    Config,
    Bool,
    Text,
    Int,
    Prompt,
    DefBool,
    Default,
    Depends,
    Select,
    Help,
    /// `---help---`
    DashedHelp,
}

/// What a word says at the front of a line; none where no line begins with it.
#[tactic(auto, unfolding(crate::specs::Keyword::keyword))]
pub fn keyword_of(word: &[u8]) -> Option<Keyword>
    ensures { result ≡ keyword word.now }
{
    if let Some(found) = block_word(word) {
        return Some(found);
    }
    if let Some(found) = type_word(word) {
        return Some(found);
    }
    attribute_word(word)
}

#[tactic(auto, unfolding(crate::specs::Keyword::block_word))]
fn block_word(word: &[u8]) -> Option<Keyword>
    ensures { result ≡ block_word word.now }
{
    if is_text(word, b"config") || is_text(word, b"menuconfig") {
        return Some(Keyword::Config);
    }
    if is_text(word, b"source") {
        return Some(Keyword::Source);
    }
    if is_text(word, b"if") {
        return Some(Keyword::If);
    }
    if is_text(word, b"endif") {
        return Some(Keyword::EndIf);
    }
    if is_text(word, b"menu") {
        return Some(Keyword::Menu);
    }
    if is_text(word, b"endmenu") {
        return Some(Keyword::EndMenu);
    }
    if is_text(word, b"choice") {
        return Some(Keyword::Choice);
    }
    if is_text(word, b"endchoice") {
        return Some(Keyword::EndChoice);
    }
    if is_text(word, b"comment") {
        return Some(Keyword::Comment);
    }
    if is_text(word, b"mainmenu") {
        return Some(Keyword::MainMenu);
    }
    None
}

#[tactic(auto, unfolding(crate::specs::Keyword::type_word))]
fn type_word(word: &[u8]) -> Option<Keyword>
    ensures { result ≡ type_word word.now }
{
    if is_text(word, b"bool") {
        return Some(Keyword::Bool);
    }
    if is_text(word, b"string") {
        return Some(Keyword::Text);
    }
    if is_text(word, b"int") {
        return Some(Keyword::Int);
    }
    None
}

#[tactic(auto, unfolding(crate::specs::Keyword::attribute_word))]
fn attribute_word(word: &[u8]) -> Option<Keyword>
    ensures { result ≡ attribute_word word.now }
{
    if is_text(word, b"depends") {
        return Some(Keyword::Depends);
    }
    if is_text(word, b"select") {
        return Some(Keyword::Select);
    }
    if is_text(word, b"default") {
        return Some(Keyword::Default);
    }
    if is_text(word, b"help") {
        return Some(Keyword::Help);
    }
    if is_text(word, b"---help---") {
        return Some(Keyword::DashedHelp);
    }
    if is_text(word, b"prompt") {
        return Some(Keyword::Prompt);
    }
    if is_text(word, b"def_bool") {
        return Some(Keyword::DefBool);
    }
    None
}
