//! The checks of the tables, in the order of the text.
ghost use Rattle.std.specs.Prelude.{◌≡◌, ◌<◌, ℕ, map, [], OnOk, nat_le, true};
ghost use Rattle.cv_values.specs.Sizes.{is_bad_name};
ghost use Rattle.fn_check.specs.Faults.{Tells};
ghost use Rattle.fn_check.specs.Known.{with_name};
ghost use Rattle.fn_check.specs.Tables.{listed_fault, is_bad_index, field_fault, fields_fault, index_decl_fault, indexes_fault, table_decl_fault, tables_fault};
ghost use Rattle.fn_tree.specs.SyntaxViews.{index_view, table_view};

use crate::fault::{CheckKind, Stop, refuse_if};
use crate::scope::add_name;
use cv_values::{Text, is_bad_name};
use fn_tree::{IndexDecl, Named, TableDecl};
use std::alloc::Global;
use std::collections::BTreeSet;

const TABLES: usize = 64;

const INDEXES: usize = 32;

const FIELDS: usize = 16;

// A bad name, or that of an index that every table has.
fn is_bad_index(name: &Text) -> bool
    ensures { result ≡ is_bad_index name.now }
{
    is_bad_name(true, name.as_str())
        || name.as_str() == "by_id"
        || name.as_str() == "by_creation_time"
}

// The kinds of fault of a list of names, and how many names it may have.
#[derive(Clone, Copy, Debug)]
struct Limit {
    most: usize,
    again: CheckKind,
    many: CheckKind,
}

// A name after so many others, which is seen then.
fn check_listed(
    alloc: Global,
    bad: bool,
    seen: &mut BTreeSet<Text>,
    count: usize,
    limit: Limit,
    name: &Named,
) -> Result<(), Stop>
    ensures fault { Tells result (listed_fault bad seen.old.keys count limit.most limit.again limit.many name.now) }
    ensures seen { OnOk result (seen.new.keys ≡ with_name seen.old.keys name.now.text) }
{
    refuse_if(bad, name.at, CheckKind::BadName)?;
    refuse_if(seen.contains(&name.text), name.at, limit.again)?;
    refuse_if(count >= limit.most, name.at, limit.many)?;
    add_name(alloc, seen, &name.text)?;
    Ok(())
}

fn check_field(
    alloc: Global,
    seen: &mut BTreeSet<Text>,
    count: usize,
    field: &Named,
) -> Result<(), Stop>
    ensures fault { Tells result (field_fault seen.old.keys count field.now) }
    ensures seen { OnOk result (seen.new.keys ≡ with_name seen.old.keys field.now.text) }
{
    let limit = Limit {
        most: FIELDS,
        again: CheckKind::DuplicateField,
        many: CheckKind::TooManyFields,
    };
    check_listed(
        alloc,
        is_bad_name(true, field.text.as_str()),
        seen,
        count,
        limit,
        field,
    )
}

fn check_fields(alloc: Global, fields: &[Named]) -> Result<(), Stop>
    ensures { Tells result (fields_fault [] 0 fields.now) }
{
    let mut seen = BTreeSet::new(alloc);
    for (count, field) in fields.iter().enumerate() {
        check_field(alloc, &mut seen, count, field)?;
    }
    Ok(())
}

fn check_index(
    alloc: Global,
    seen: &mut BTreeSet<Text>,
    count: usize,
    index: &IndexDecl,
) -> Result<(), Stop>
    ensures fault { Tells result (index_decl_fault seen.old.keys count (index_view index.now)) }
    ensures seen { OnOk result (seen.new.keys ≡ with_name seen.old.keys index.now.name.text) }
{
    let limit = Limit {
        most: INDEXES,
        again: CheckKind::DuplicateIndex,
        many: CheckKind::TooManyIndexes,
    };
    check_listed(
        alloc,
        is_bad_index(&index.name.text),
        seen,
        count,
        limit,
        &index.name,
    )?;
    check_fields(alloc, &index.fields)
}

fn check_indexes(alloc: Global, indexes: &[IndexDecl]) -> Result<(), Stop>
    ensures { Tells result (indexes_fault [] 0 (map index_view indexes.now)) }
{
    let mut seen = BTreeSet::new(alloc);
    for (count, index) in indexes.iter().enumerate() {
        check_index(alloc, &mut seen, count, index)?;
    }
    Ok(())
}

fn check_table(
    alloc: Global,
    seen: &mut BTreeSet<Text>,
    count: usize,
    table: &TableDecl,
) -> Result<(), Stop>
    ensures fault { Tells result (table_decl_fault seen.old.keys count (table_view table.now)) }
    ensures seen { OnOk result (seen.new.keys ≡ with_name seen.old.keys table.now.name.text) }
{
    let limit = Limit {
        most: TABLES,
        again: CheckKind::DuplicateTable,
        many: CheckKind::TooManyTables,
    };
    check_listed(
        alloc,
        is_bad_name(true, table.name.text.as_str()),
        seen,
        count,
        limit,
        &table.name,
    )?;
    check_indexes(alloc, &table.indexes)
}

/// The checks of all tables.
pub(crate) fn check_tables(alloc: Global, tables: &[TableDecl]) -> Result<(), Stop>
    ensures { Tells result (tables_fault [] 0 (map table_view tables.now)) }
{
    let mut seen = BTreeSet::new(alloc);
    for (count, table) in tables.iter().enumerate() {
        check_table(alloc, &mut seen, count, table)?;
    }
    Ok(())
}
