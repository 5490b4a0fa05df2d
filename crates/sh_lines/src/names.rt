//! What the first word of a line is.
ghost use Rattle.std.specs.Prelude.{◌≡◌};
ghost use Rattle.sh_lines.specs.Lines as lines;

use br_path::is_text;

/// Whether a shell reads a first word otherwise than as a command: as an assignment, or as a word of its grammar.
pub(crate) fn is_shell_word(word: &[u8]) -> bool
    ensures { result ≡ lines.is_shell_word word.now }
{
    word.contains(&b'=') || opens_part(word) || divides_part(word) || closes_part(word)
}

fn opens_part(word: &[u8]) -> bool
    ensures { result ≡ lines.opens_part word.now }
{
    is_text(word, b"if")
        || is_text(word, b"for")
        || is_text(word, b"while")
        || is_text(word, b"until")
        || is_text(word, b"case")
        || is_text(word, b"!")
        || is_text(word, b"{")
}

fn divides_part(word: &[u8]) -> bool
    ensures { result ≡ lines.divides_part word.now }
{
    is_text(word, b"then")
        || is_text(word, b"else")
        || is_text(word, b"elif")
        || is_text(word, b"do")
}

fn closes_part(word: &[u8]) -> bool
    ensures { result ≡ lines.closes_part word.now }
{
    is_text(word, b"fi") || is_text(word, b"done") || is_text(word, b"esac") || is_text(word, b"}")
}

/// Whether a name is that of a command on texts.
pub(crate) fn is_text_command(name: &[u8]) -> bool
    ensures { result ≡ lines.is_text_command name.now }
{
    is_text(name, b"printf") || is_text(name, b"echo") || is_text(name, b"sed")
}
