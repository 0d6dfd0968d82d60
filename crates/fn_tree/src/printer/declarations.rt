ghost use Rattle.std.specs.Prelude.{◌≡◌, ◌++◌, IfOk, string_bytes, map, true};
ghost use Rattle.std.specs.List.{flat_map};
ghost use Rattle.fn_tree.specs.Canonical.{mark, names_text, kind_word, index_text, table_text, function_text, canonical_text};
ghost use Rattle.fn_tree.specs.SyntaxViews.{index_view, table_view, function_view, module_view};
ghost use Rattle.fn_tree.specs.declared.lexeme.Mark.TheVariants.{OpenParen, CloseParen};

use crate::lexeme::{Mark, Word};
use crate::printer::statements::print_block;
use crate::printer::tokens::{put_comma, put_end, put_mark, put_name, put_path, put_word};
use crate::syntax::{Function, IndexDecl, Kind, Module, Named, TableDecl};
use cv_values::{Memory, Text};
use std::alloc::Global;

/// The canonical text of a module: its tokens in order, one space between two tokens of one table or
/// function, and a line feed after the last token of each. It takes time linear in that text.
pub fn print(alloc: Global, m: &Module) -> Result<Text, Memory>
    ensures { IfOk result (λ text. text ≡ canonical_text (module_view m.now)) }
{
    let mut out = String::new(alloc);
    print_tables(&mut out, &m.tables)?;
    print_functions(alloc, &mut out, &m.functions)?;
    Ok(Text::from_string(out))
}

fn print_tables(out: &mut String, tables: &[TableDecl]) -> Result<(), Memory>
    ensures { IfOk result
        (λ done. string_bytes out.new ≡ string_bytes out.old ++ flat_map table_text (map table_view tables.now)) }
{
    for table in tables {
        print_table(out, table)?;
    }
    Ok(())
}

fn print_functions(alloc: Global, out: &mut String, functions: &[Function]) -> Result<(), Memory>
    ensures { IfOk result
        (λ done. string_bytes out.new
        ≡ string_bytes out.old ++ flat_map function_text (map function_view functions.now)) }
{
    for function in functions {
        print_function(alloc, out, function)?;
    }
    Ok(())
}

fn print_table(out: &mut String, table: &TableDecl) -> Result<(), Memory>
    ensures { IfOk result
        (λ done. string_bytes out.new ≡ string_bytes out.old ++ table_text (table_view table.now)) }
{
    out.push_str(Word::Table.spelling())?;
    put_name(out, &table.name)?;
    put_mark(out, Mark::OpenBrace)?;
    print_indexes(out, &table.indexes)?;
    put_mark(out, Mark::CloseBrace)?;
    put_end(out)?;
    Ok(())
}

fn print_indexes(out: &mut String, indexes: &[IndexDecl]) -> Result<(), Memory>
    ensures { IfOk result
        (λ done. string_bytes out.new ≡ string_bytes out.old ++ flat_map index_text (map index_view indexes.now)) }
{
    for index in indexes {
        print_index(out, index)?;
    }
    Ok(())
}

fn print_index(out: &mut String, index: &IndexDecl) -> Result<(), Memory>
    ensures { IfOk result
        (λ done. string_bytes out.new ≡ string_bytes out.old ++ index_text (index_view index.now)) }
{
    put_word(out, Word::Index)?;
    put_name(out, &index.name)?;
    print_names(out, &index.fields)?;
    put_mark(out, Mark::Semicolon)
}

fn print_function(alloc: Global, out: &mut String, function: &Function) -> Result<(), Memory>
    ensures { IfOk result
        (λ done. string_bytes out.new ≡ string_bytes out.old ++ function_text (function_view function.now)) }
{
    out.push_str(kind_word(function.kind).spelling())?;
    put_path(out, function.udf.as_str())?;
    print_names(out, &function.params)?;
    print_block(alloc, out, &function.body)?;
    put_end(out)?;
    Ok(())
}

fn kind_word(kind: Kind) -> Word
    ensures { result ≡ kind_word kind }
{
    match kind {
        Kind::Query => Word::Query,
        Kind::Mutation => Word::Mutation,
        Kind::Helper => Word::Helper,
    }
}

// Appends names in round brackets, with commas between them.
fn print_names(out: &mut String, names: &[Named]) -> Result<(), Memory>
    ensures { IfOk result
        (λ done. string_bytes out.new ≡ string_bytes out.old
        ++ mark OpenParen ++ names_text true names.now ++ mark CloseParen) }
{
    put_mark(out, Mark::OpenParen)?;
    let mut first = true;
    for name in names {
        put_comma(out, first)?;
        put_name(out, name)?;
        first = false;
    }
    put_mark(out, Mark::CloseParen)
}
