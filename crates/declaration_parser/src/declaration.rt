// Declarations.
ghost use Rattle.std.specs.Prelude.{◌≡◌, ◌++◌};
ghost use Rattle.plex_lexer.specs.Cursors.{ahead};
ghost use Rattle.token_grammar.specs.Gives.{Reads};
ghost use Rattle.token_grammar.specs.Reading.{at, many};
ghost use Rattle.declaration_parser.specs.Declarations.{clear_read, decl_kind_read, decl_read};
ghost use Rattle.declaration_parser.specs.Declarations.{decls_read, field_read, file_read};
ghost use Rattle.declaration_parser.specs.Declarations.{forlopp_read, init_read, opened_read};
ghost use Rattle.declaration_parser.specs.Declarations.{records_read, stored_read, temporary_read};
ghost use Rattle.declaration_parser.specs.Declarations.{variable_read, width_read, DECL};
ghost use Rattle.plex_ast.specs.Words as classes;

use plex_ast::{Decl, DeclKind, Field, Numbered, words};
use plex_lexer::Cursor;
use plex_num::Seq;
use std::alloc::Global;
use token_grammar::{Fault, line_of, name, number, starts, starts_in, word};

/// `DECLARE ; { decl }`: the declarations, and the tokens after them.
#[tactic(auto, unfolding(crate::specs::Declarations::decls_read))]
pub fn declarations(alloc: Global, tokens: Cursor<'_>) -> Result<(Seq<Decl>, Cursor<'_>), Fault>
    ensures { Reads result decls_read tokens.entry }
{
    let (_, left) = word(tokens, words::DECLARE)?;
    let (_, left) = word(left, words::SEMI)?;
    decls(alloc, left)
}

#[tactic(auto, using(crate::proofs::Loops::decl_less, crate::proofs::Loops::decl_on, crate::proofs::Loops::decl_end, crate::proofs::Loops::decl_bad))]
fn decls(alloc: Global, tokens: Cursor<'_>) -> Result<(Seq<Decl>, Cursor<'_>), Fault>
    ensures { Reads result (many DECL decl_read) tokens.entry }
{
    let mut left = tokens;
    let mut list = Seq::new(alloc);
    'decls: while starts_decl(left) {
        let (decl, after) = decl(alloc, left)?;
        if let Err(_) = list.push(decl) {
            return Err(Fault::Memory);
        }
        left = after;
    }
    Ok((list, left))
}

fn starts_decl(tokens: Cursor<'_>) -> bool
    ensures { result ≡ at DECL (ahead tokens.entry) }
{
    starts_in(
        tokens,
        &[
            words::VARIABLE,
            words::TEMPORARY,
            words::FORLOPP,
            words::FILE,
        ],
    )
}

#[tactic(auto, unfolding(crate::specs::Declarations::decl_read))]
fn decl(alloc: Global, tokens: Cursor<'_>) -> Result<(Decl, Cursor<'_>), Fault>
    ensures { Reads result decl_read tokens.entry }
{
    let line = line_of(tokens);
    let (kind, left) = decl_kind(alloc, tokens)?;
    Ok((Decl { line, kind }, left))
}

#[tactic(auto, unfolding(crate::specs::Declarations::decl_kind_read))]
fn decl_kind(alloc: Global, tokens: Cursor<'_>) -> Result<(DeclKind, Cursor<'_>), Fault>
    ensures { Reads result decl_kind_read tokens.entry }
{
    if starts(tokens, words::VARIABLE) {
        variable(alloc, tokens)
    } else if starts(tokens, words::TEMPORARY) {
        temporary(alloc, tokens)
    } else {
        file(alloc, tokens)
    }
}

/// `VARIABLE name WIDTH number [ INIT number ] [ CLEAR ] ;`
#[tactic(auto, unfolding(crate::specs::Declarations::variable_read))]
fn variable(alloc: Global, tokens: Cursor<'_>) -> Result<(DeclKind, Cursor<'_>), Fault>
    ensures { Reads result variable_read tokens.entry }
{
    let (_, left) = word(tokens, words::VARIABLE)?;
    let (variable, left) = name(alloc, left)?;
    let (stored, left) = stored(left)?;
    let (width, (init, clear)) = stored;
    Ok((
        DeclKind::Variable {
            name: variable,
            width,
            init,
            clear,
        },
        left,
    ))
}

/// How a variable is stored: its width, its first value, and whether a restart clears it.
type Stored = (Numbered, (Option<Numbered>, bool));

/// `WIDTH number [ INIT number ] [ CLEAR ] ;`
fn stored(tokens: Cursor<'_>) -> Result<(Stored, Cursor<'_>), Fault>
    ensures { Reads result stored_read tokens.entry }
{
    let (_, left) = word(tokens, words::WIDTH)?;
    let (width, left) = number(left)?;
    let (init, left) = init(left)?;
    let (clear, left) = clear(left)?;
    let (_, left) = word(left, words::SEMI)?;
    Ok(((width, (init, clear)), left))
}

/// `[ INIT number ]`
#[tactic(auto, unfolding(crate::specs::Declarations::init_read))]
fn init(tokens: Cursor<'_>) -> Result<(Option<Numbered>, Cursor<'_>), Fault>
    ensures { Reads result init_read tokens.entry }
{
    if starts(tokens, words::INIT) {
        let (_, left) = word(tokens, words::INIT)?;
        let (value, left) = number(left)?;
        Ok((Some(value), left))
    } else {
        Ok((None, tokens))
    }
}

/// Whether CLEAR stands there.
#[tactic(auto, unfolding(crate::specs::Declarations::clear_read))]
fn clear(tokens: Cursor<'_>) -> Result<(bool, Cursor<'_>), Fault>
    ensures { Reads result clear_read tokens.entry }
{
    if starts(tokens, words::CLEAR) {
        let (_, left) = word(tokens, words::CLEAR)?;
        Ok((true, left))
    } else {
        Ok((false, tokens))
    }
}

/// `TEMPORARY name ;`
#[tactic(auto, unfolding(crate::specs::Declarations::temporary_read))]
fn temporary(alloc: Global, tokens: Cursor<'_>) -> Result<(DeclKind, Cursor<'_>), Fault>
    ensures { Reads result temporary_read tokens.entry }
{
    let (_, left) = word(tokens, words::TEMPORARY)?;
    let (temporary, left) = name(alloc, left)?;
    let (_, left) = word(left, words::SEMI)?;
    Ok((DeclKind::Temporary { name: temporary }, left))
}

/// `[ FORLOPP ] FILE name SIZE number ;` and the fields of the file.
#[tactic(auto, unfolding(crate::specs::Declarations::file_read))]
fn file(alloc: Global, tokens: Cursor<'_>) -> Result<(DeclKind, Cursor<'_>), Fault>
    ensures { Reads result file_read tokens.entry }
{
    let (forlopp, left) = forlopp(tokens)?;
    let (_, left) = word(left, words::FILE)?;
    let (file, left) = name(alloc, left)?;
    let (records, left) = records(alloc, left)?;
    let (size, fields) = records;
    Ok((
        DeclKind::File {
            forlopp,
            name: file,
            size,
            fields,
        },
        left,
    ))
}

/// `SIZE number ;` and the fields.
fn records(alloc: Global, tokens: Cursor<'_>) -> Result<((Numbered, Seq<Field>), Cursor<'_>), Fault>
    ensures { Reads result records_read tokens.entry }
{
    let (_, left) = word(tokens, words::SIZE)?;
    let (size, left) = number(left)?;
    let (_, left) = word(left, words::SEMI)?;
    let (fields, left) = fields(alloc, left)?;
    Ok(((size, fields), left))
}

/// Whether FORLOPP stands there.
#[tactic(auto, unfolding(crate::specs::Declarations::forlopp_read))]
fn forlopp(tokens: Cursor<'_>) -> Result<(bool, Cursor<'_>), Fault>
    ensures { Reads result forlopp_read tokens.entry }
{
    if starts(tokens, words::FORLOPP) {
        let (_, left) = word(tokens, words::FORLOPP)?;
        Ok((true, left))
    } else {
        Ok((false, tokens))
    }
}

#[tactic(auto, using(crate::proofs::Loops::field_less, crate::proofs::Loops::field_on, crate::proofs::Loops::field_end, crate::proofs::Loops::field_bad))]
fn fields(alloc: Global, tokens: Cursor<'_>) -> Result<(Seq<Field>, Cursor<'_>), Fault>
    ensures { Reads result (many classes.FIELD field_read) tokens.entry }
{
    let mut left = tokens;
    let mut list = Seq::new(alloc);
    'fields: while starts(left, words::FIELD) {
        let (field, after) = field(alloc, left)?;
        if let Err(_) = list.push(field) {
            return Err(Fault::Memory);
        }
        left = after;
    }
    Ok((list, left))
}

/// `FIELD name WIDTH number [ INIT number ] ;`
#[tactic(auto, unfolding(crate::specs::Declarations::field_read, crate::specs::Declarations::width_read))]
fn field(alloc: Global, tokens: Cursor<'_>) -> Result<(Field, Cursor<'_>), Fault>
    ensures { Reads result field_read tokens.entry }
{
    let line = line_of(tokens);
    let (_, left) = word(tokens, words::FIELD)?;
    let (field, left) = name(alloc, left)?;
    let (opened, left) = opened(left)?;
    let (width, init) = opened;
    Ok((
        Field {
            line,
            name: field,
            width,
            init,
        },
        left,
    ))
}

/// `WIDTH number [ INIT number ] ;`
fn opened(tokens: Cursor<'_>) -> Result<((Numbered, Option<Numbered>), Cursor<'_>), Fault>
    ensures { Reads result opened_read tokens.entry }
{
    let (_, left) = word(tokens, words::WIDTH)?;
    let (width, left) = number(left)?;
    let (init, left) = init(left)?;
    let (_, left) = word(left, words::SEMI)?;
    Ok(((width, init), left))
}
