//! The schema of a module's tables.
ghost use Rattle.std.specs.Prelude.{◌≡◌, ◌++◌, IfOk, OnOk, map};
ghost use Rattle.fn_tree.specs.Schemas.{last_fields, by_id, by_creation_time, text_of, declared_index, declared_table, schema_of};
ghost use Rattle.fn_tree.specs.SyntaxViews.{index_view, table_view};

use cv_keys::{Index, Schema, Table};
use cv_values::{Memory, Seq, Text};
use fn_tree::{IndexDecl, Named, TableDecl};
use std::alloc::Global;

fn push_last_fields(alloc: Global, fields: &mut Seq<Text>) -> Result<(), Memory>
    ensures { OnOk result (fields.new ≡ fields.old ++ last_fields) }
{
    fields.push(Text::of(alloc, "_creationTime")?)?;
    fields.push(Text::of(alloc, "_id")?)?;
    Ok(())
}

fn by_id(alloc: Global) -> Result<Index, Memory>
    ensures { IfOk result (λ i. i ≡ by_id) }
{
    let mut fields = Seq::new(alloc);
    fields.push(Text::of(alloc, "_id")?)?;
    Ok(Index {
        name: Text::of(alloc, "by_id")?,
        fields,
    })
}

fn by_creation_time(alloc: Global) -> Result<Index, Memory>
    ensures { IfOk result (λ i. i ≡ by_creation_time) }
{
    let mut fields = Seq::new(alloc);
    push_last_fields(alloc, &mut fields)?;
    Ok(Index {
        name: Text::of(alloc, "by_creation_time")?,
        fields,
    })
}

fn push_texts(alloc: Global, texts: &mut Seq<Text>, names: &[Named]) -> Result<(), Memory>
    ensures { OnOk result (texts.new ≡ texts.old ++ map text_of names.now) }
{
    for name in names {
        texts.push(name.text.copy(alloc)?)?;
    }
    Ok(())
}

fn declared_index(alloc: Global, decl: &IndexDecl) -> Result<Index, Memory>
    ensures { IfOk result (λ i. i ≡ declared_index (index_view decl.now)) }
{
    let mut fields = Seq::new(alloc);
    push_texts(alloc, &mut fields, &decl.fields)?;
    push_last_fields(alloc, &mut fields)?;
    Ok(Index {
        name: decl.name.text.copy(alloc)?,
        fields,
    })
}

fn push_indexes(alloc: Global, indexes: &mut Seq<Index>, decls: &[IndexDecl]) -> Result<(), Memory>
    ensures { OnOk result (indexes.new ≡ indexes.old ++ map declared_index (map index_view decls.now)) }
{
    for decl in decls {
        indexes.push(declared_index(alloc, decl)?)?;
    }
    Ok(())
}

fn declared_table(alloc: Global, decl: &TableDecl) -> Result<Table, Memory>
    ensures { IfOk result (λ t. t ≡ declared_table (table_view decl.now)) }
{
    let mut indexes = Seq::new(alloc);
    indexes.push(by_id(alloc)?)?;
    indexes.push(by_creation_time(alloc)?)?;
    push_indexes(alloc, &mut indexes, &decl.indexes)?;
    Ok(Table {
        name: decl.name.text.copy(alloc)?,
        indexes,
    })
}

/// The schema of tables: of each the indexes that all tables have, and then the declared ones.
pub(crate) fn schema_of(alloc: Global, decls: &[TableDecl]) -> Result<Schema, Memory>
    ensures { IfOk result (λ s. s ≡ schema_of (map table_view decls.now)) }
{
    let mut tables = Seq::new(alloc);
    for decl in decls {
        tables.push(declared_table(alloc, decl)?)?;
    }
    Ok(Schema { tables })
}
