//! Words that have a place of their own.
ghost use Rattle.std.specs.Prelude.{◌≡◌, map};
ghost use Rattle.ode_value.specs.Words.{reserved};
ghost use Rattle.ode_terminals.specs.Words.{looked_up, rows, word_terminal};

use ode_grammar::Terminal;

/// The reserved words, each with what the grammar sees of it, and those that have a place of their own and aren't reserved.
const ROWS: [(&[u8], Terminal); 69] = [
    (b"abort", Terminal::Abort),
    (b"activate", Terminal::Activate),
    (b"after", Terminal::After),
    (b"and", Terminal::And),
    (b"any", Terminal::Any),
    (b"at", Terminal::At),
    (b"before", Terminal::Before),
    (b"begin", Terminal::Begin),
    (b"bool", Terminal::SortWord),
    (b"choose", Terminal::Choose),
    (b"class", Terminal::Class),
    (b"clock", Terminal::Clock),
    (b"commit", Terminal::Commit),
    (b"committed", Terminal::Scope),
    (b"constraint", Terminal::Constraint),
    (b"create", Terminal::Create),
    (b"deactivate", Terminal::Deactivate),
    (b"deferred", Terminal::Mode),
    (b"delete", Terminal::Delete),
    (b"delversion", Terminal::DropVersion),
    (b"dependent", Terminal::Mode),
    (b"else", Terminal::Else),
    (b"event", Terminal::Event),
    (b"every", Terminal::Every),
    (b"fa", Terminal::Fa),
    (b"false", Terminal::Leaf),
    (b"first", Terminal::First),
    (b"if", Terminal::If),
    (b"immediate", Terminal::Mode),
    (b"independent", Terminal::Mode),
    (b"initial", Terminal::Initial),
    (b"int", Terminal::SortWord),
    (b"let", Terminal::Let),
    (b"newversion", Terminal::NewVersion),
    (b"null", Terminal::Leaf),
    (b"once", Terminal::Lasting),
    (b"or", Terminal::Or),
    (b"pdelete", Terminal::PDelete),
    (b"perpetual", Terminal::Lasting),
    (b"pnew", Terminal::PNew),
    (b"prior", Terminal::Prior),
    (b"ref", Terminal::Ref),
    (b"relative", Terminal::Relative),
    (b"return", Terminal::Return),
    (b"say", Terminal::Say),
    (b"sequence", Terminal::Sequence),
    (b"show", Terminal::Show),
    (b"soft", Terminal::Soft),
    (b"tabort", Terminal::TAbort),
    (b"tbegin", Terminal::TBegin),
    (b"tcommit", Terminal::TCommit),
    (b"tcomplete", Terminal::TComplete),
    (b"text", Terminal::SortWord),
    (b"this", Terminal::Leaf),
    (b"time", Terminal::Time),
    (b"trigger", Terminal::Trigger),
    (b"true", Terminal::Leaf),
    (b"version", Terminal::Version),
    (b"void", Terminal::Void),
    (b"whole", Terminal::Scope),
    (b"by", Terminal::By),
    (b"change", Terminal::Change),
    (b"faabs", Terminal::FaAbs),
    (b"for", Terminal::For),
    (b"in", Terminal::In),
    (b"pipe", Terminal::Pipe),
    (b"relplus", Terminal::RelPlus),
    (b"same", Terminal::Same),
    (b"suchthat", Terminal::SuchThat),
];

fn look_up(rows: &[(&[u8], Terminal)], word: &[u8]) -> Terminal
    ensures { result ≡ looked_up (map (λ row. (row.0.now, row.1)) rows.now) word.now }
{
    for row in rows {
        if row.0 == word {
            return row.1;
        }
    }
    Terminal::Name
}

/// What the grammar sees of a word.
#[tactic(auto, unfolding(crate::specs::Words::word_terminal))]
pub fn word_terminal(word: &[u8]) -> Terminal
    ensures { result ≡ word_terminal word.now }
{
    look_up(&ROWS, word)
}

/// The words of the table but the last nine are the reserved ones, in their order.
#[tactic(auto, unfolding(ode_value::specs::Words::reserved))]
pub fn words_are_reserved()
    ensures { map (λ row. row.0) rows ≡ reserved }
{}
