//! Statements from a source.
ghost use Rattle.std.specs.Prelude.{◌≡◌, ◌≤◌, ◌<◌, ◌+◌, ◌-◌, ◌^◌, ℕ, IsTrue, false, is_ok, length, OnOk, IfOk, IsErr, IfErr, IsSome, [], Some};
ghost use Rattle.ode_script.specs.Cutting.{is_full, last_piece, pieces};
ghost use Rattle.ode_script.specs.Pieces.{is_outside, place_after, depth_after, begun, with_byte, ends, has_code};
ghost use Rattle.ode_host.specs.Causes.{RoseIf};
ghost use Rattle.ode_value.specs.Limits.{script_limit, statement_limit};

use ode_host::Source;
use ode_lex::is_blank;
use ode_value::List;
use ode_value::limits::{SCRIPT_LIMIT, STATEMENT_LIMIT};
use std::alloc::{AllocError, Global};

// How many bytes a read asks for.
const CHUNK: usize = 4096;

// Where a byte of a piece stands.
#[derive(Clone, Copy)]
enum Place {
    // Outside comments and texts.
    Outside,
    // There, behind a slash that may begin a comment.
    Slash,
    Comment,
    Text,
    // In a text, behind a backslash.
    Escape,
}

impl Place {
    fn is_outside(self) -> bool
        ensures { result ≡ is_outside self }
    {
        matches!(self, Place::Outside | Place::Slash)
    }

    // The place behind one more byte.
    fn after(self, b: u8) -> Place
        ensures { result ≡ place_after self b }
    {
        match (self, b) {
            (Place::Slash, b'/') => Place::Comment,
            (Place::Outside, b'/') => Place::Slash,
            (Place::Outside | Place::Slash, b'"') => Place::Text,
            (Place::Outside | Place::Slash, _) => Place::Outside,
            (_, b'\n') => Place::Outside,
            (Place::Comment, _) => Place::Comment,
            (Place::Text, b'"') => Place::Outside,
            (Place::Text, b'\\') => Place::Escape,
            (Place::Text | Place::Escape, _) => Place::Text,
        }
    }
}

// Whether a rest has more than blanks and comments.
fn has_code(rest: &[u8]) -> bool
    ensures { result ≡ has_code Place.Outside rest.now }
{
    let mut place = Place::Outside;
    for b in rest {
        let is_idle = match place {
            Place::Outside => is_blank(*b) || *b == b'/',
            Place::Slash => *b == b'/',
            Place::Comment => true,
            Place::Text | Place::Escape => false,
        };
        if !is_idle {
            return true;
        }
        place = place.after(*b);
    }
    !matches!(place, Place::Outside | Place::Comment)
}

/// What comes next in a script.
#[derive(Drop)]
pub enum Piece {
    /// A piece's bytes and the line of its first byte, counted from 1.
    Statement { text: List<u8>, line: u64 },
    /// The source ended, and what was left had only blanks and comments.
    End,
}

/// Why there is no piece.
#[derive(Clone, Copy, Debug, PartialEq, Eq)]
pub enum ScriptError {
    /// There is no memory for the piece.
    Memory,
    /// A read failed.
    ReadFault,
    /// The statement has more than `ode_value::limits::STATEMENT_LIMIT` bytes.
    LongStatement,
    /// The script has more than `ode_value::limits::SCRIPT_LIMIT` bytes.
    LongScript,
}

impl From<AllocError> for ScriptError {
    ghost use Rattle.ode_script.specs.declared.reader.ScriptError.TheVariants.{Memory};

    ghost from_gives = { λ _ e. e ≡ Memory };

    fn from(_: AllocError) -> ScriptError {
        ScriptError::Memory
    }
}

// A piece as far as it is read.
#[derive(Drop)]
struct Part {
    // The line of its first byte.
    line: u64,
    text: List<u8>,
    // Where the next byte stands.
    place: Place,
    // How many braces are open there.
    depth: u64,
}

impl Part {
    ghost use Rattle.ode_script.specs.Left.{last_of, IsStatement};

    fn new(alloc: Global, line: u64) -> Part
        ensures { result ≡ begun line }
    {
        Part {
            line,
            text: List::new(alloc),
            place: Place::Outside,
            depth: 0,
        }
    }

    // Whether the piece may have no further byte.
    #[tactic(auto, unfolding(ode_value::specs::Limits::statement_limit))]
    fn is_full(&self) -> bool
        ensures { result ≡ is_full self.now }
    {
        self.text.len() >= STATEMENT_LIMIT
    }

    // Whether the piece ends with this byte.
    fn ends(&self, b: u8) -> bool
        ensures { result ≡ ends self.now b }
    {
        b == b';' && self.depth == 0 && self.place.is_outside()
    }

    fn depth_after(&self, b: u8) -> u64
        requires { self.now.depth + 1 < 2 ^ 64 }
        ensures { result ≡ depth_after self.now.place self.now.depth b }
    {
        match b {
            b'{' if self.place.is_outside() => self.depth + 1,
            b'}' if self.place.is_outside() => self.depth.saturating_sub(1),
            _ => self.depth,
        }
    }

    fn push(&mut self, b: u8) -> Result<(), AllocError>
        requires { self.old.depth + 1 < 2 ^ 64 }
        ensures { OnOk result (self.new ≡ with_byte self.old b) }
    {
        self.text.push(b)?;
        self.depth = self.depth_after(b);
        self.place = self.place.after(b);
        Ok(())
    }

    // The whole piece.
    fn into_statement(self) -> Piece
        ensures { result ≡ Piece.Statement self.text self.line }
    {
        let Part { line, text, .. } = self;
        Piece::Statement { text, line }
    }

    // What the piece comes to at the end of input.
    fn into_last(self) -> Piece
        ensures piece { last_piece self ≡ last_of result }
        ensures some { IsStatement result → 0 < length self.text }
    {
        if has_code(self.text.as_slice()) {
            self.into_statement()
        } else {
            Piece::End
        }
    }
}

/// What is read of a script and not taken, and how many bytes may still come.
#[derive(Drop)]
pub struct Reader {
    alloc: Global,
    buffer: [u8; CHUNK],
    at: usize,
    end: usize,
    // How many bytes may still be taken.
    allowed: usize,
    // The line of the next byte.
    line: u64,
    // No call has answered an error.
    live: bool,
    ghost in_buffer: { end ≤ length buffer },
    ghost countable: { line + allowed < 2 ^ 64 },
}

impl Reader {
    ghost use Rattle.std.specs.Prelude.{List as Items, Bool, IfSome, ◌∷◌};
    ghost use Rattle.ode_script.specs.Cutting.{Pieces};
    ghost use Rattle.ode_script.specs.Left.{Bars, HasLeft, HasPieces, IsNext, Shows, Takes, SkipsBlanks, TakesPiece, IsStatement, IsWithin, allowed, held, is_live};

    /// A reader at a script's first byte.
    pub fn new(alloc: Global) -> Reader
        ensures pieces { (script : Items ℕ) → HasPieces result (Some script) (pieces script) }
        ensures live { IsTrue (is_live result) }
    {
        Reader {
            alloc,
            buffer: [0; CHUNK],
            at: 0,
            end: 0,
            allowed: SCRIPT_LIMIT,
            line: 1,
            live: true,
        }
    }

    /// Whether `read_statement` may be called: no call of it has answered an error.
    pub fn live(&self) -> bool
        ensures { result ≡ is_live self.now }
    {
        self.live
    }

    // Reads on where all that was read is taken. Only here bytes come in chunks.
    fn fill<S: Source>(&mut self, source: &mut S) -> Result<(), ScriptError>
        ensures rest { (rest : Items ℕ) → HasLeft self.old (S.left source.old) rest
            → OnOk result (HasLeft self.new (S.left source.new) rest) }
        ensures end { (rest : Items ℕ) → HasLeft self.old (S.left source.old) rest
            → OnOk result (self.new.end ≤ self.new.at → rest ≡ []) }
        ensures allowed { self.new.allowed ≡ self.old.allowed }
        ensures line { self.new.line ≡ self.old.line }
        ensures cause { RoseIf (IsErr result) (S.faults source.old) (S.faults source.new) }
        ensures kind { IfErr result (λ e. e ≡ ScriptError.ReadFault) }
    {
        if self.at < self.end {
            return Ok(());
        }
        match source.read(&mut self.buffer) {
            Ok(count) => {
                self.at = 0;
                self.end = count;
                Ok(())
            }
            Err(_) => Err(ScriptError::ReadFault),
        }
    }

    // The next byte, which stays. None comes behind a piece that is full.
    fn peek<S: Source>(&mut self, source: &mut S, is_full: bool) -> Result<Option<u8>, ScriptError>
        ensures byte { (rest : Items ℕ) → HasLeft self.old (S.left source.old) rest
            → Shows rest self.new (S.left source.new) result }
        ensures next { IfOk result (λ byte. IfSome byte (IsNext self.new)) }
        ensures room { IfOk result (λ byte. IsSome byte → is_full ≡ false) }
        ensures allowed { self.new.allowed ≡ self.old.allowed }
        ensures line { self.new.line ≡ self.old.line }
        ensures bars { IfErr result (Bars is_full self.new.allowed) }
        ensures cause { RoseIf (result ≡ Err ScriptError.ReadFault) (S.faults source.old) (S.faults source.new) }
    {
        self.fill(source)?;
        if self.at >= self.end {
            return Ok(None);
        }
        if is_full {
            return Err(ScriptError::LongStatement);
        }
        if self.allowed == 0 {
            return Err(ScriptError::LongScript);
        }
        Ok(Some(self.buffer[self.at]))
    }

    // Takes the next byte.
    fn take(&mut self, b: u8)
        requires { IsNext self.old b }
        ensures held { held self.old ≡ b ∷ held self.new }
        ensures counts { Takes self.old self.new b }
    {
        self.at += 1;
        self.allowed -= 1;
        if b == b'\n' {
            self.line += 1;
        }
    }

    // Takes the blanks before the next piece.
    fn skip_blanks<S: Source>(&mut self, source: &mut S) -> Result<(), ScriptError>
        ensures blanks { (ps : Pieces) → HasPieces self.old (S.left source.old) ps
            → SkipsBlanks ps self.new (S.left source.new) result }
        ensures allowed { self.new.allowed ≤ self.old.allowed }
        ensures bars { IfErr result (Bars false self.new.allowed) }
        ensures cause { RoseIf (result ≡ Err ScriptError.ReadFault) (S.faults source.old) (S.faults source.new) }
    {
        while let Some(b) = self.peek(source, false)? {
            if !is_blank(b) {
                break;
            }
            self.take(b);
        }
        Ok(())
    }

    // The next piece. A byte is kept before it is taken, so that want of memory never stands in place of a script that is
    // too long.
    fn read_piece<S: Source>(&mut self, source: &mut S) -> Result<Piece, ScriptError>
        ensures piece { (ps : Pieces) → HasPieces self.old (S.left source.old) ps
            → TakesPiece ps self.new (S.left source.new) result }
        ensures fewer { IfOk result (λ piece. IsStatement piece → self.new.allowed < self.old.allowed) }
        ensures within { IfOk result (IsWithin statement_limit) }
        ensures short { IfOk result (IsWithin self.old.allowed) }
        ensures later_allowed { self.new.allowed ≤ self.old.allowed }
        ensures cause { RoseIf (result ≡ Err ScriptError.ReadFault) (S.faults source.old) (S.faults source.new) }
        ensures long_statement { result ≡ Err ScriptError.LongStatement → self.new.allowed + statement_limit ≤ self.old.allowed }
        ensures long_script { result ≡ Err ScriptError.LongScript → self.new.allowed ≡ 0 }
        ensures memory { result ≡ Err ScriptError.Memory → 0 < self.new.allowed }
    {
        self.skip_blanks(source)?;
        let mut part = Part::new(self.alloc, self.line);
        while let Some(b) = self.peek(source, part.is_full())? {
            let is_last = part.ends(b);
            part.push(b)?;
            self.take(b);
            if is_last {
                return Ok(part.into_statement());
            }
        }
        Ok(part.into_last())
    }

    /// The next piece of the script, in whatever chunks its bytes come. After an error the reader isn't used again.
    pub fn read_statement<S: Source>(&mut self, source: &mut S) -> Result<Piece, ScriptError>
        requires live { IsTrue (is_live self.old) }
        ensures piece { (ps : Pieces) → HasPieces self.old (S.left source.old) ps
            → TakesPiece ps self.new (S.left source.new) result }
        ensures live { is_live self.new ≡ is_ok result }
        ensures fewer { IfOk result (λ piece. IsStatement piece → allowed self.new < allowed self.old) }
        ensures within { IfOk result (IsWithin statement_limit) }
        ensures short { IfOk result (IsWithin (allowed self.old)) }
        ensures later_allowed { allowed self.new ≤ allowed self.old }
        ensures cause { RoseIf (result ≡ Err ScriptError.ReadFault) (S.faults source.old) (S.faults source.new) }
        // Also where nothing is known of the source: a long statement has taken that many bytes, a long script all of them.
        ensures long_statement { result ≡ Err ScriptError.LongStatement → allowed self.new + statement_limit ≤ allowed self.old }
        ensures long_script { result ≡ Err ScriptError.LongScript → allowed self.new ≡ 0 }
        ensures memory { result ≡ Err ScriptError.Memory → 0 < allowed self.new }
    {
        let piece = self.read_piece(source);
        self.live = piece.is_ok();
        piece
    }
}
